// Whether a range of a line can be given a label: it is free, it leaves a free place, and there are rows for it.
ghost use Rattle.std.specs.Prelude.{◌<◌, ◌≤◌, length, MatchResult};
ghost use Rattle.splice.specs.Changes.{count_after, Apt};
ghost use Rattle.plan.specs.Fit.{TellsFill, Fitted};

use line::{Point, Run, seek};
use refusal::Refusal;
use splice::{Change, change_of};

// Whether no place is free but those of `new`, which the run at `at` holds.
// A struct of the runs, the index and the new run is no plainer: the index is what `seek` answered, and goes on to each side at once.
fn fills<P: Point>(runs: &[Run<P, u8>], at: usize, new: &Run<P, u8>) -> bool
    requires { at < length runs.now }
    ensures { TellsFill P.Point.place P.Point.size runs.now at (P.Point.place new.now.low) (P.Point.place new.now.high) result }
{
    let run = runs[at];
    if run.low < new.low || new.high < run.high {
        return false;
    }
    // `all` over `enumerate` was tried, and the proof did not close: it left open that the run which fails is a free one elsewhere.
    for (i, other) in runs.iter().enumerate() {
        if i != at && other.label == 0 {
            return false;
        }
    }
    true
}

// The change of a line that lays `new` over it, if its places are free, others are too, and `most` rows are enough.
pub(crate) fn fit<P: Point>(
    runs: &[Run<P, u8>],
    most: usize,
    new: &Run<P, u8>,
) -> Result<Change<Run<P, u8>>, Refusal>
    requires some { 0 < length runs.now }
    requires fits { length runs.now ≤ most }
    requires ordered { P.Point.place new.now.low ≤ P.Point.place new.now.high }
    requires labels { 0 < new.now.label }
    ensures apt { MatchResult result (λ c. Apt (length runs.now) c × (count_after c (length runs.now) ≤ most)) (λ _. 0 ≤ 0) }
    ensures judged { Fitted P.Point.place P.Point.size runs.now most (P.Point.place new.now.low) (P.Point.place new.now.high) new.now.label result }
{
    let at = seek(runs, &new.low).unwrap();
    let run = runs[at];
    if run.label != 0 || run.high < new.high {
        return Err(Refusal::RangeTaken);
    }
    if fills(runs, at, new) {
        return Err(Refusal::NothingElsewhere);
    }
    let change = change_of(runs, at, new);
    if !change.has_room(runs.len(), most) {
        return Err(Refusal::PlanFull);
    }
    Ok(change)
}
