// The sheets in memory.
ghost use Rattle.std.specs.Prelude.{◌≡◌};

use crate::{SheetRow, Strips};

// The sheets of all pairs of so many named networks and elsewhere, in the rows that the caller lends: each pair has a strip of `depth` rows.
// That there are rows for every strip is no invariant here: a ruleset that is shut keeps its rows so too, however many they are.
#[derive(Drop)]
pub struct Sheets<'a> {
    pub networks: u8,
    pub depth: usize,
    pub rows: &'a mut [SheetRow],
}

impl<'a> Sheets<'a> {
    // The strips, to be looked at.
    pub fn strips(&self) -> Strips<'_>
        ensures networks { result.networks ≡ self.now.networks }
        ensures depth { result.depth ≡ self.now.depth }
        ensures rows { result.rows.now ≡ self.now.rows.now }
    {
        Strips {
            networks: self.networks,
            depth: self.depth,
            rows: self.rows,
        }
    }
}
