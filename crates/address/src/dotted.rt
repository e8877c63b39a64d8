// The numbers of an IPv4 text, each with the dot that ends it.
ghost use Rattle.std.specs.Prelude.{◌≡◌, ℕ, ◌≤◌, List, [], ◌∷◌, ◌++◌, decimal, MatchOption, ◌≢◌};

use text::{Sink, cut, put_number, read_number};

// The byte that these are the digits of.
pub(crate) fn read_byte(bytes: &[u8]) -> Option<u8>
    ensures { MatchOption result ((n : ℕ) → n ≤ 255 → decimal n ≢ bytes.now) (λ n. (n ≤ 255) × (decimal n ≡ bytes.now)) }
{
    Some(read_number(bytes, 255)? as u8)
}

// The byte before the first dot, and what stands after it.
pub(crate) fn read_dotted(bytes: &[u8]) -> Option<(u8, &[u8])>
    ensures { MatchOption result ((n : ℕ) (rest : List ℕ) → n ≤ 255 → decimal n ++ (46 ∷ rest) ≢ bytes.now) (λ p. (p.0 ≤ 255) × (decimal p.0 ++ (46 ∷ p.1.now) ≡ bytes.now)) }
{
    let parted = cut(bytes, b'.')?;
    Some((read_byte(parted.front)?, parted.rest))
}

// Puts a byte and a dot.
pub(crate) fn write_dotted<S: Sink>(n: u8, sink: &mut S)
    requires { S.Sink.has_room sink.old (decimal n ++ (46 ∷ [])) }
    ensures { S.Sink.takes sink.old (decimal n ++ (46 ∷ [])) sink.new }
{
    put_number(usize::from(n), sink);
    sink.put_byte(b'.');
}
