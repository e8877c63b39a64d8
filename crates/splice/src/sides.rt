// Where a new run meets the runs before and after it: it leaves a rest of the run that it cuts, or merges with a neighbour of its label.
ghost use Rattle.std.specs.Prelude.{ℕ, ◌<◌, ◌≤◌, length};
ghost use Rattle.line.specs.Line.{Line, over};
ghost use Rattle.splice.specs.Changes.{Spot, Led, Follows, changed, Apt};

use crate::Change;
use crate::change::Side;
use line::{Label, Point, Run};

// The three functions take `runs`, `at` and `new`, with `at` inside the runs: a struct of these is no plainer, since the index is what `seek` answered, and goes on to each side at once.

// How the line goes on before a new run in the run at `at`.
// One function for this side and the other is no plainer: `previous` or `next`, `low` or `high`, `at - 1` or `at + 1` would each be a parameter.
fn side_before<P: Point, L: Label>(runs: &[Run<P, L>], at: usize, new: &Run<P, L>) -> Side<P, L>
    requires { at < length runs.now }
    ensures within { result.cut ≤ at }
    ensures led { (f : ℕ → L) → Spot P.Point.place P.Point.size f runs.now at (P.Point.place new.now.low) (P.Point.place new.now.high) new.now.label → Led P.Point.place f runs.now (P.Point.place new.now.low) (P.Point.place new.now.high) new.now.label result }
{
    let run = runs[at];
    if run.low < new.low {
        let high = new.low.previous().unwrap();
        return Side {
            cut: at,
            rest: Some(Run { high, ..run }),
            end: new.low,
        };
    }
    if at > 0 {
        let earlier = runs[at - 1];
        if earlier.label == new.label {
            return Side {
                cut: at - 1,
                rest: None,
                end: earlier.low,
            };
        }
    }
    Side {
        cut: at,
        rest: None,
        end: new.low,
    }
}

// How the line goes on after a new run in the run at `at`.
fn side_after<P: Point, L: Label>(runs: &[Run<P, L>], at: usize, new: &Run<P, L>) -> Side<P, L>
    requires { at < length runs.now }
    ensures within { (at < result.cut) × (result.cut ≤ length runs.now) }
    ensures follows { (f : ℕ → L) → Spot P.Point.place P.Point.size f runs.now at (P.Point.place new.now.low) (P.Point.place new.now.high) new.now.label → Follows P.Point.place P.Point.size f runs.now (P.Point.place new.now.low) (P.Point.place new.now.high) new.now.label result }
{
    let run = runs[at];
    if new.high < run.high {
        let low = new.high.next().unwrap();
        return Side {
            cut: at + 1,
            rest: Some(Run { low, ..run }),
            end: new.high,
        };
    }
    if at + 1 < runs.len() {
        let later = runs[at + 1];
        if later.label == new.label {
            return Side {
                cut: at + 2,
                rest: None,
                end: later.high,
            };
        }
    }
    Side {
        cut: at + 1,
        rest: None,
        end: new.high,
    }
}

// The change of a line that lays `new` over a part of the run at `at`.
pub fn change_of<P: Point, L: Label>(
    runs: &[Run<P, L>],
    at: usize,
    new: &Run<P, L>,
) -> Change<Run<P, L>>
    requires { at < length runs.now }
    ensures apt { Apt (length runs.now) result }
    ensures line { (f : ℕ → L) → Spot P.Point.place P.Point.size f runs.now at (P.Point.place new.now.low) (P.Point.place new.now.high) new.now.label → Line P.Point.place P.Point.size (over f (P.Point.place new.now.low) (P.Point.place new.now.high) new.now.label) (changed result runs.now) }
{
    let before = side_before(runs, at, new);
    let after = side_after(runs, at, new);
    Change {
        from: before.cut,
        to: after.cut,
        before: before.rest,
        middle: Run {
            low: before.end,
            high: after.end,
            label: new.label,
        },
        after: after.rest,
    }
}
