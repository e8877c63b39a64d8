// Looking a point up in the runs of a line, in steps that grow with the logarithm of their number.
ghost use Rattle.std.specs.Prelude.{◌≡◌, length, MatchOption};
ghost use Rattle.line.specs.Search.{Sought, Labelled, LineOf};

use crate::{Point, Run};

// The number of the run that holds `p`, which is how many runs after the first begin no later; none where there are no runs.
pub fn seek<P: Point, L: Copy>(runs: &[Run<P, L>], p: &P) -> Option<usize>
    ensures { MatchOption result (length runs.now ≡ 0) (Sought P.Point.place P.Point.size runs.now (P.Point.place p.now)) }
{
    let [_, later @ ..] = runs else {
        return None;
    };
    Some(later.partition_point(|run| run.low <= *p))
}

// The label of `p` in the line that the runs are; none where there are no runs.
pub fn look_up<P: Point, L: Copy>(runs: &[Run<P, L>], p: &P) -> Option<L>
    ensures { MatchOption result (length runs.now ≡ 0) (Labelled P.Point.place P.Point.size runs.now (P.Point.place p.now)) }
{
    let at = seek(runs, p)?;
    Some(runs[at].label)
}

// The runs of the line with which the rows begin, where blank rows follow it, each from the first point to the first point.
pub fn line_of<P: Point, L: Copy>(rows: &[Run<P, L>]) -> &[Run<P, L>]
    ensures { LineOf P.Point.place P.Point.size rows.now result.now }
{
    let [_, later @ ..] = rows else {
        return rows;
    };
    let first = P::first();
    let more = later.partition_point(|row| row.high != first);
    &rows[..=more]
}
