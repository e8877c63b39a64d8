// Numbers in decimal digits, with no zero in front.
ghost use Rattle.std.specs.Prelude.{◌≡◌, ℕ, ◌≤◌, decimal, MatchOption, ◌≢◌};

use crate::Sink;

// The number from 0 to `top` that these are the digits of.
pub fn read_number(bytes: &[u8], top: u32) -> Option<u32>
    ensures { MatchOption result ((n : ℕ) → n ≤ top → decimal n ≢ bytes.now) (λ n. (n ≤ top) × (decimal n ≡ bytes.now)) }
{
    // Digit by digit. Std's `parse` was tried and takes three to four times as long: it is for text, so that all bytes are first checked to be that.
    let [first, rest @ ..] = bytes else {
        return None;
    };
    if bytes.len() > 10 {
        return None;
    }
    if *first == b'0' && rest.len() > 0 {
        return None;
    }
    let mut number: u64 = 0;
    for byte in bytes {
        if *byte < b'0' {
            return None;
        }
        if *byte > b'9' {
            return None;
        }
        number = number * 10 + (*byte - b'0') as u64;
    }
    if number > top as u64 {
        return None;
    }
    Some(number as u32)
}

// Puts the digits of a number. A `Display` is no plainer here: `write!` does not promise to succeed where there is room, so that every caller would have a failure to rule out.
pub fn put_number<S: Sink>(n: usize, sink: &mut S)
    requires { S.Sink.has_room sink.old (decimal n) }
    ensures { S.Sink.takes sink.old (decimal n) sink.new }
{
    if n < 10 {
        sink.put_byte(b'0' + n as u8);
        return;
    }
    put_number(n / 10, sink);
    sink.put_byte(b'0' + (n % 10) as u8);
}
