// What takes texts one after another.
ghost use Rattle.std.specs.Prelude.{ℕ, List, [], ◌∷◌};
ghost use Rattle.text.specs.Turns.{InTurn};

// A place that texts go to: a buffer that they are written into, or a room that they are held to.
pub trait Sink {
    // there is room for the text
    ghost has_room: { Self → List ℕ → Type 0 };

    // the sink goes from the first to the second as it takes the text
    ghost takes: { Self → List ℕ → Self → Type 0 };

    // Takes a text.
    fn put(&mut self, text: &[u8])
        requires { has_room self.old text.now }
        ensures { takes self.old text.now self.new };

    // Takes a byte.
    fn put_byte(&mut self, byte: u8)
        requires { has_room self.old (byte ∷ []) }
        ensures { takes self.old (byte ∷ []) self.new }
    {
        self.put(&[byte]);
    }

    // what holds of texts that are taken one after another
    ghost laws: { InTurn has_room takes };
}
