// A cursor over the parts of a text, for rows and fields, which stay two types: their items differ, and an empty last part is a field and no row.
ghost use Rattle.std.specs.Prelude.{◌≡◌, ◌+◌, ◌≤◌, length, drop};
ghost use Rattle.text.specs.Parts.{first_part};

use crate::cuts::first_part;

// Stands before the part that begins at `at`, with `count` parts handed out, and past the end of the text after the last.
#[derive(Drop)]
pub(crate) struct Parts<'t, const STOP: u8> {
    pub(crate) text: &'t [u8],
    pub(crate) at: usize,
    pub(crate) count: usize,
    ghost within: { at ≤ length text.now + 1 },
    ghost counted: { count ≤ at },
}

impl<'t, const STOP: u8> Parts<'t, STOP> {
    // A cursor that has handed out no part of the text.
    pub(crate) fn new(text: &'t [u8]) -> Parts<'t, STOP>
        ensures text { result.text.now ≡ text.now }
        ensures at { result.at ≡ 0 }
        ensures count { result.count ≡ 0 }
    {
        Parts {
            text,
            at: 0,
            count: 0,
        }
    }

    // Hands out the part that the next stop or the end of the text ends.
    pub(crate) fn part(&mut self) -> &'t [u8]
        requires { self.old.at ≤ length self.old.text.now }
        ensures bytes { result.now ≡ first_part STOP (drop self.old.at self.old.text.now) }
        ensures text { self.new.text ≡ self.old.text }
        ensures at { self.new.at ≡ self.old.at + length result.now + 1 }
        ensures count { self.new.count ≡ self.old.count + 1 }
    {
        let text = self.text;
        let bytes = first_part(&text[self.at..], STOP);
        self.at += bytes.len() + 1;
        self.count += 1;
        bytes
    }
}
