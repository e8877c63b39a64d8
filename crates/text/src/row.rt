// A row of a text.
ghost use Rattle.std.specs.Prelude.{◌≡◌};
ghost use Rattle.text.specs.Parts.{passed_over};

// The bytes of a row without the byte that ends it, the index of the first in the text, and the row's number, counted from 1.
#[derive(Clone, Copy)]
pub struct Row<'t> {
    pub bytes: &'t [u8],
    pub start: usize,
    pub line: usize,
}

impl Row<'_> {
    // Whether the row says nothing: it is empty, or begins with '#'.
    pub fn is_passed_over(&self) -> bool
        ensures { result ≡ passed_over self.now.bytes.now }
    {
        matches!(self.bytes, [] | [b'#', ..])
    }
}
