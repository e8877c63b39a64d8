// A run of a line.
ghost use Rattle.std.specs.Prelude.{◌≡◌};

use crate::Point;

// The points from `low` to `high`, under one label.
#[derive(Clone, Copy, PartialEq, Eq)]
pub struct Run<P, L> {
    pub low: P,
    pub high: P,
    pub label: L,
}

impl<P: Point, L: Copy> Run<P, L> {
    // The row that stands after a line: the first point alone, under this label.
    pub fn blank(label: L) -> Run<P, L>
        ensures low { P.Point.place result.low ≡ 0 }
        ensures high { result.high ≡ result.low }
        ensures label { result.label ≡ label }
    {
        let first = P::first();
        Run {
            low: first,
            high: first,
            label,
        }
    }
}
