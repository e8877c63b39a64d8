// How a cursor goes over the fields of a row.
ghost use Rattle.std.specs.Prelude.{◌≡◌};
ghost use Rattle.std.specs.Iterator.{at_most};
ghost use Rattle.text.specs.Parts.{fields};
ghost use Rattle.text.specs.Cursors.{fields_left, field_bytes_left, FieldStep};

use crate::parts::Parts;
use crate::{Field, Fields};

impl<'t> Fields<'t> {
    // A cursor that has handed out no field of the row.
    pub fn new(row: &'t [u8]) -> Fields<'t>
        ensures left { fields_left result ≡ fields row.now }
        ensures number { result.parts.count ≡ 0 }
        ensures row { result.parts.text.now ≡ row.now }
    {
        Fields {
            parts: Parts::new(row),
        }
    }
}

impl<'t> Iterator for Fields<'t> {
    type Item = Field<'t>;

    ghost next_gives = { FieldStep };

    ghost remaining = { λ fields. at_most (field_bytes_left fields) };

    // The next field, if one is left.
    fn next(&mut self) -> Option<Field<'t>> {
        if self.parts.at > self.parts.text.len() {
            return None;
        }
        let bytes = self.parts.part();
        let number = self.parts.count;
        Some(Field { bytes, number })
    }
}
