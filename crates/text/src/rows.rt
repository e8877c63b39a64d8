// A cursor over the rows of a text.

use crate::parts::Parts;

mod walk;

// The rows are the parts of the text, but for an empty last one.
#[derive(Drop)]
pub struct Rows<'t> {
    parts: Parts<'t, b'\n'>,
}
