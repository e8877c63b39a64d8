// A cursor over the fields of a row.
use crate::parts::Parts;

mod walk;

// The fields are the parts of the row, an empty last one among them.
#[derive(Drop)]
pub struct Fields<'t> {
    parts: Parts<'t, b','>,
}
