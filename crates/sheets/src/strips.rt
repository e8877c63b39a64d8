// The strips of a table that is only looked at.
ghost use Rattle.std.specs.Prelude.{◌≡◌, ◌*◌};
ghost use Rattle.sheets.specs.Strips.{pair_number, strip};
ghost use Rattle.sheets.specs.Tables.{HasStrips, HasPair};

use crate::SheetRow;
use rules::Pair;

// The strips of all pairs of so many named networks and elsewhere, each of `depth` rows. That the rows are enough is no invariant, but asked by each call: `Sheets` lends its rows as they are, and those of a shut ruleset may be too few. So is that a pair is inside: a type of such pairs is no plainer, since it would have to name the table.
#[derive(Clone, Copy)]
pub struct Strips<'a> {
    pub networks: u8,
    pub depth: usize,
    pub rows: &'a [SheetRow],
}

impl<'a> Strips<'a> {
    // Where the strip of a pair begins.
    pub(crate) fn start_of(&self, pair: Pair) -> usize
        requires strips { HasStrips self.now.networks self.now.depth self.now.rows.now }
        requires inside { HasPair self.now.networks pair }
        ensures { result ≡ pair_number self.now.networks pair.from pair.to * self.now.depth }
    {
        // The rows are there, so their number bounds the product.
        prove!(self.depth <= self.rows.len());
        let number = pair.from as usize * (self.networks as usize + 1) + pair.to as usize;
        number * self.depth
    }

    // The strip of a pair.
    pub fn strip_of(&self, pair: Pair) -> &'a [SheetRow]
        requires strips { HasStrips self.now.networks self.now.depth self.now.rows.now }
        requires inside { HasPair self.now.networks pair }
        ensures { result.now ≡ strip self.now.depth (pair_number self.now.networks pair.from pair.to) self.now.rows.now }
    {
        let start = self.start_of(pair);
        let rows = self.rows;
        &rows[start..start + self.depth]
    }
}
