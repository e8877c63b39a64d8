// Texts that a byte parts in two.
ghost use Rattle.std.specs.Prelude.{◌≡◌, MatchOption};
ghost use Rattle.text.specs.Parts.{Lacks, Cut, first_part};

// A text without the byte that parts it; a struct, since names tell what stands where plainer than the pair of str's split_once.
#[derive(Clone, Copy)]
pub struct Parted<'t> {
    pub front: &'t [u8],
    pub rest: &'t [u8],
}

// What stands before the first `stop`, and what stands after it.
pub fn cut(text: &[u8], stop: u8) -> Option<Parted<'_>>
    ensures { MatchOption result (Lacks stop text.now) (λ p. Cut stop text.now p.front.now p.rest.now) }
{
    let at = text.iter().position(|byte| *byte == stop)?;
    Some(Parted {
        front: &text[..at],
        rest: &text[at + 1..],
    })
}

// What stands before the first `stop`, or the whole text where it has none.
pub(crate) fn first_part(text: &[u8], stop: u8) -> &[u8]
    ensures { result.now ≡ first_part stop text.now }
{
    match cut(text, stop) {
        Some(parted) => parted.front,
        None => text,
    }
}
