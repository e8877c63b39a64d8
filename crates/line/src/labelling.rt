// A labelling that tells its labels piece by piece, so that its line can be drawn.
ghost use Rattle.std.specs.Prelude.{ℕ};
ghost use Rattle.line.specs.Line.{Keeps};

use crate::{Label, Point};

// What gives every place a label. `label` is the labelling, and `ready` says that it can be told: every value can, unless a kind says of which that holds.
pub trait Labelling {
    type Spot: Point;

    type Tag: Label;

    ghost label: { Self → ℕ → Self.Tag };

    ghost ready: { Self → Type 0 } = { λ _. Unit {0} };

    // The label of `from`, and a point from there on up to which the label holds.
    fn piece(&self, from: &Self::Spot) -> (Self::Tag, Self::Spot)
        requires { ready self.now }
        ensures { Keeps (label self.now) result.0 (Self.Spot.Point.place from.now) (Self.Spot.Point.place result.1) };
}
