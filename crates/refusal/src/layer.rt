// What a cause is about.
ghost use Rattle.std.specs.Prelude.{◌≡◌};
ghost use Rattle.refusal.specs.Numbers.{layer_number};

// A field, a row, or the plan or the ruleset as a whole; in the order of the numbers.
#[derive(Clone, Copy, PartialEq, Eq, Debug)]
pub enum Layer {
    Field = 1,
    Row,
    Whole,
}

impl Layer {
    // The number of the layer.
    pub fn number(self) -> u8
        ensures { result ≡ layer_number self }
    {
        self as u8
    }
}
