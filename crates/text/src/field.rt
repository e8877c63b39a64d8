// A field of a row.

// The bytes of a field without the commas about it, and its number in the row, counted from 1.
#[derive(Clone, Copy)]
pub struct Field<'t> {
    pub bytes: &'t [u8],
    pub number: usize,
}
