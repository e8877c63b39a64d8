// How a cursor goes over the rows of a text.
ghost use Rattle.std.specs.Prelude.{◌≡◌};
ghost use Rattle.std.specs.Iterator.{at_most};
ghost use Rattle.text.specs.Parts.{rows};
ghost use Rattle.text.specs.Cursors.{rows_left, bytes_left, RowStep};

use crate::parts::Parts;
use crate::{Row, Rows};

impl<'t> Rows<'t> {
    // A cursor that has handed out no row of the text.
    pub fn new(text: &'t [u8]) -> Rows<'t>
        ensures left { rows_left result ≡ rows text.now }
        ensures line { result.parts.count ≡ 0 }
        ensures start { result.parts.at ≡ 0 }
        ensures text { result.parts.text.now ≡ text.now }
    {
        Rows {
            parts: Parts::new(text),
        }
    }
}

impl<'t> Iterator for Rows<'t> {
    type Item = Row<'t>;

    ghost next_gives = { RowStep };

    ghost remaining = { λ rows. at_most (bytes_left rows) };

    // The next row, if one is left.
    fn next(&mut self) -> Option<Row<'t>> {
        let start = self.parts.at;
        if start >= self.parts.text.len() {
            return None;
        }
        let bytes = self.parts.part();
        let line = self.parts.count;
        Some(Row { bytes, start, line })
    }
}
