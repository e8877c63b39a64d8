// Bytes in hexadecimal digits.
ghost use Rattle.std.specs.Prelude.{◌≡◌, ℕ, ◌<◌, ◌≤◌, List, length, MatchOption, ◌≢◌};
ghost use Rattle.std.specs.List.{AllByRecursion};
ghost use Rattle.packets.specs.Rows.{hexed};

use address::read_digit;

// Puts the bytes that these are the digits of at the front of the buffer, and lends them; none where they are those of no bytes that fit.
pub(crate) fn read_hex<'o>(digits: &[u8], out: &'o mut [u8]) -> Option<&'o [u8]>
    ensures { MatchOption result ((bytes : List ℕ) → AllByRecursion (λ b. b < 256) bytes → length bytes ≤ length out.old → hexed bytes ≢ digits.now) (λ bytes. (length bytes.now ≤ length out.old) × (hexed bytes.now ≡ digits.now)) }
{
    let (pairs, []) = digits.as_chunks::<2>() else {
        return None;
    };
    if pairs.len() > out.len() {
        return None;
    }
    // By the place in `out`: tried a zip with its `iter_mut`, and the proof didn't close, since of what is written through one nothing is known after the loop.
    for (i, [high, low]) in pairs.iter().enumerate() {
        out[i] = read_digit(*high)? * 16 + read_digit(*low)?;
    }
    Some(&out[..pairs.len()])
}
