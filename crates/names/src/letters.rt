// Which texts are names.
ghost use Rattle.std.specs.Prelude.{◌≡◌};
ghost use Rattle.names.specs.Names.{well_formed, letter, letters};

fn is_letter(b: u8) -> bool
    ensures { result ≡ letter b }
{
    matches!(b, b'a'..=b'z' | b'0'..=b'9' | b'-')
}

fn are_letters(text: &[u8]) -> bool
    ensures { result ≡ letters text.now }
{
    text.iter().all(|b| is_letter(*b))
}

// Whether a text is a name.
pub fn is_well_formed(text: &[u8]) -> bool
    ensures { result ≡ well_formed text.now }
{
    (1..=12).contains(&text.len())
        && are_letters(text)
        && text != b"any".as_slice()
        && text != b"elsewhere".as_slice()
}
