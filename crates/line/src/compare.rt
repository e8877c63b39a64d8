// Comparing lists of runs, and points by their order.
ghost use Rattle.std.specs.Prelude.{◌≡◌, ◌-◌, ◌<◌, min, Decides};
ghost use Rattle.line.specs.Line.{outline};

use crate::{Label, Point, Run};

// Whether two lists have the same runs, by place and label.
pub fn same_runs<P: Point, L: Label>(runs: &[Run<P, L>], others: &[Run<P, L>]) -> bool
    ensures { Decides result (outline P.Point.place runs.now ≡ outline P.Point.place others.now) }
{
    runs == others
}

// The earlier of two points.
pub fn earlier<P: Point>(a: &P, b: &P) -> P
    ensures { P.Point.place result ≡ min (P.Point.place a.now) (P.Point.place b.now) }
{
    (*a).min(*b)
}

// The last point that is before `limit`, which is not the first, and not after `end`.
pub fn last_before<P: Point>(limit: &P, end: &P) -> P
    requires { 0 < P.Point.place limit.now }
    ensures { P.Point.place result ≡ min (P.Point.place limit.now - 1) (P.Point.place end.now) }
{
    let Some(point) = limit.previous() else {
        unreachable()
    };
    point.min(*end)
}
