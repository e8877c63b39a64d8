// A lent buffer that texts are written into one after another, from its start on or from a place in it.
ghost use Rattle.std.specs.Prelude.{◌≡◌, false};
ghost use Rattle.text.specs.Buffers.{HasRoom, Writes};
ghost use Rattle.text.specs.Writers.{writes_in_turn, never_spent};

use crate::{Sink, Spendable};

// Writes at the place `at` of the buffer, behind what it wrote before.
#[derive(Drop)]
pub struct Writer<'b> {
    out: &'b mut [u8],
    at: usize,
}

impl<'b> Writer<'b> {
    // A writer that has written nothing.
    pub fn new(out: &'b mut [u8]) -> Writer<'b>
        ensures lent { result.out.ghost_name ≡ out.entry.ghost_name }
        ensures bytes { result.out.now ≡ out.old }
        ensures at { result.at ≡ 0 }
    {
        Writer { out, at: 0 }
    }

    // A writer that has written nothing, and begins at a place of the buffer; where the buffer ends before it there is room for no text.
    pub fn starting_at(out: &'b mut [u8], at: usize) -> Writer<'b>
        ensures lent { result.out.ghost_name ≡ out.entry.ghost_name }
        ensures bytes { result.out.now ≡ out.old }
        ensures at { result.at ≡ at }
    {
        Writer { out, at }
    }

    // Where the text that is written ends.
    pub fn end(&self) -> usize
        ensures { result ≡ self.now.at }
    {
        self.at
    }
}

impl Sink for Writer<'_> {
    ghost has_room = { HasRoom };

    ghost takes = { Writes };

    fn put(&mut self, text: &[u8]) {
        let Writer { out, at } = self;
        let end = *at + text.len();
        out[*at..end].copy_from_slice(text);
        *at = end;
    }

    // Sets the byte at once. As a text of one byte, which the trait's own body puts, it takes longer, and digits and commas come one by one.
    fn put_byte(&mut self, byte: u8) {
        let Writer { out, at } = self;
        out[*at] = byte;
        *at += 1;
    }

    ghost laws = { writes_in_turn };
}

impl Spendable for Writer<'_> {
    ghost spent = { λ _. false };

    fn is_spent(&self) -> bool {
        false
    }

    ghost stays = { λ w text. never_spent w text };
}
