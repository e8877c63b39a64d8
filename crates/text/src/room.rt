// Texts that are measured before they are written.
ghost use Rattle.std.specs.Prelude.{◌≡◌, Some, length, not, is_some};
ghost use Rattle.text.specs.Rooms.{AnyText, Leaves};
ghost use Rattle.text.specs.Measures.{leaves_in_turn, nothing_leaves};

use crate::{Sink, Spendable};

// What the texts leave of a room of so many bytes; none where it is too small for them.
#[derive(Clone, Copy)]
pub struct Room {
    left: Option<usize>,
}

impl Room {
    // A room that no text has taken from.
    pub fn new(bytes: usize) -> Room
        ensures { result.left ≡ Some bytes }
    {
        Room { left: Some(bytes) }
    }

    // How many bytes are left.
    pub fn left(&self) -> Option<usize>
        ensures { result ≡ self.now.left }
    {
        self.left
    }
}

impl Sink for Room {
    ghost has_room = { AnyText };

    ghost takes = { Leaves };

    fn put(&mut self, text: &[u8]) {
        let Room { left } = self;
        *left = left.and_then(|bytes| bytes.checked_sub(text.len()));
    }

    ghost laws = { leaves_in_turn };
}

impl Spendable for Room {
    ghost spent = { λ r. not (is_some r.left) };

    fn is_spent(&self) -> bool {
        matches!(self, Room { left: None })
    }

    ghost stays = { λ r text. nothing_leaves r.left (length text) };
}
