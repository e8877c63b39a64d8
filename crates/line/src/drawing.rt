// Drawing the line of a labelling: count its runs, write them, and blank the rows that are left.
// Each contract names the place, the size and the label in full: a default of the trait does not unfold in a clause, and a record of the three would stand between a reader and the definitions.
ghost use Rattle.std.specs.Prelude.{◌≡◌, ◌+◌, ◌<◌, ◌≤◌, length, replicate};
ghost use Rattle.line.specs.Line.{Stretch, runs_needed, Drawn, Listed, Counted, Redrawn};

use crate::{Labelling, Point, Run};

// The label of `from`, and the last point up to which it holds without a break.
fn stretch<F: Labelling>(labelling: &F, from: &F::Spot) -> (F::Tag, F::Spot)
    requires { F.Labelling.ready labelling.now }
    ensures { Stretch F.Spot.Point.size (F.Labelling.label labelling.now) result.0 (F.Spot.Point.place from.now) (F.Spot.Point.place result.1) }
{
    let (label, first_end) = labelling.piece(from);
    let mut end = first_end;
    // No `for`: the next point is the one after the piece that was told, and not the one after the last point asked for.
    while let Some(after) = end.next() {
        let (other, other_end) = labelling.piece(&after);
        if other != label {
            break;
        }
        end = other_end;
    }
    (label, end)
}

// How many runs the line of the labelling has, if they are at most `most`.
pub fn needed<F: Labelling>(labelling: &F, most: usize) -> Option<usize>
    requires { F.Labelling.ready labelling.now }
    ensures { Counted F.Tag.PartialEq.eq F.Spot.Point.size (F.Labelling.label labelling.now) most result }
{
    let mut from = F::Spot::first();
    for before in 0..most {
        let (_, high) = stretch(labelling, &from);
        let Some(after) = high.next() else {
            return Some(before + 1);
        };
        from = after;
    }
    None
}

// Writes the line of the labelling, for which there are rows enough, into the first rows, and says how many they are.
pub fn draw<F: Labelling>(rows: &mut [Run<F::Spot, F::Tag>], labelling: &F) -> usize
    requires ready { F.Labelling.ready labelling.now }
    requires fits { runs_needed F.Tag.PartialEq.eq F.Spot.Point.size (F.Labelling.label labelling.now) ≤ length rows.old }
    ensures count { result ≡ runs_needed F.Tag.PartialEq.eq F.Spot.Point.size (F.Labelling.label labelling.now) }
    ensures drawn { Drawn F.Spot.Point.place F.Spot.Point.size (F.Labelling.label labelling.now) result rows.old rows.new }
{
    let mut low = F::Spot::first();
    for (before, row) in rows.iter_mut().enumerate() {
        let (label, high) = stretch(labelling, &low);
        *row = Run { low, high, label };
        let Some(after) = high.next() else {
            return before + 1;
        };
        low = after;
    }
    unreachable()
}

// Makes the rows, of which there are enough, the line of the labelling and then blank rows.
pub fn draw_over<F: Labelling>(
    rows: &mut [Run<F::Spot, F::Tag>],
    labelling: &F,
    blank: Run<F::Spot, F::Tag>,
)
    requires ready { F.Labelling.ready labelling.now }
    requires fits { runs_needed F.Tag.PartialEq.eq F.Spot.Point.size (F.Labelling.label labelling.now) ≤ length rows.old }
    ensures { Listed F.Spot.Point.place F.Spot.Point.size blank (F.Labelling.label labelling.now) (runs_needed F.Tag.PartialEq.eq F.Spot.Point.size (F.Labelling.label labelling.now)) rows.new }
{
    let count = draw(rows, labelling);
    fill(&mut rows[count..], blank);
}

// Makes the rows the line of the labelling and then blank rows, and says how many runs the line has; where they are too few, touches none.
pub fn redraw<F: Labelling>(
    rows: &mut [Run<F::Spot, F::Tag>],
    labelling: &F,
    blank: Run<F::Spot, F::Tag>,
) -> Option<usize>
    requires { F.Labelling.ready labelling.now }
    ensures { Redrawn F.Spot.Point.place F.Spot.Point.size F.Tag.PartialEq.eq blank (F.Labelling.label labelling.now) rows.old rows.new result }
{
    let count = needed(labelling, rows.len())?;
    draw_over(rows, labelling, blank);
    Some(count)
}

// Writes one value into every row. Not by std's `fill`: tried, and the proof didn't close: std's fill asks for a clone that cannot fail, which `Copy` does not tell of a type parameter.
pub fn fill<T: Copy>(rows: &mut [T], value: T)
    ensures { rows.new ≡ replicate (length rows.old) value }
{
    rows.fill_with(|| value);
}
