// A kind of label: two of them are equal exactly where `==` says so.
ghost use Rattle.std.specs.Prelude.{◌≡◌, Decides};
ghost use Rattle.line.specs.LabelLemmas.{numbers_tell, options_tell};

// A kind of label. What `==` answers decides whether two labels are equal.
pub trait Label: Copy + PartialEq {
    ghost tells: { (a b : Self) → Decides (Self.PartialEq.eq a b) (a ≡ b) };
}

// Two impls and not one, which would be no plainer: an impl names its type, std's numbers share no trait for it, and Rattle takes no impl that a macro of the repository writes.
impl Label for u8 {
    ghost tells = { numbers_tell };
}

// As for u8: an impl names its type, and Rattle takes no impl that a macro of the repository writes.
impl Label for u16 {
    ghost tells = { numbers_tell };
}

impl<L: Label> Label for Option<L> {
    ghost tells = { options_tell L.PartialEq.eq L.Label.tells };
}
