// What is true of every line, for every kind of point and of label.
ghost use Rattle.std.specs.Prelude.{ℕ, List};
ghost use Rattle.line.specs.Laws.{OneLine, FewestRuns};
ghost use Rattle.line.specs.declared.run.Run.{Run};

use crate::{Label, Point};

// The facts of lines, at the kinds of a point and a label: a labelling has one line, and no fewer runs label alike.
pub fn line_laws<P: Point, L: Label>(_point: &P, _label: &L)
    ensures one { (f g : ℕ → L) (runs others : List (Run P L)) → OneLine P.Point.place P.Point.size f g runs others }
    ensures fewest { (f : ℕ → L) (runs others : List (Run P L)) → FewestRuns P.Point.place P.Point.size L.PartialEq.eq f runs others }
{}
