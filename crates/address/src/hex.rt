// The groups of an IPv6 text, by halves.
ghost use Rattle.std.specs.Prelude.{◌≡◌, ℕ, ◌^◌, ◌<◌, List, ◌∷◌, ◌++◌, length, MatchOption, ◌≢◌, refl};
ghost use Rattle.address.specs.Texts.{digit, group, groups2, groups4};

use text::Sink;

// The value of a hexadecimal digit. By hand: std's `to_digit` takes capital letters too, which no text has here.
pub fn read_digit(b: u8) -> Option<u8>
    ensures { MatchOption result ((d : ℕ) → d < 16 → digit d ≢ b) (λ d. (d < 16) × (digit d ≡ b)) }
{
    match b as char {
        '0'..='9' => Some(b - b'0'),
        'a'..='f' => Some(b - b'a' + 10),
        _ => None,
    }
}

// The hexadecimal digit of a value. Std's `from_digit` is no plainer: it answers an `Option` of a `char`, to be turned into a byte again.
fn write_digit(d: u8) -> u8
    requires { d < 16 }
    ensures { result ≡ digit d }
{
    if d < 10 { b'0' + d } else { b'a' - 10 + d }
}

// A number with a text: one group, or two halves of it that a colon parts.
pub(crate) trait Groups: Copy {
    // the text of a number
    ghost text: { Self → List ℕ };

    // the number has no more bits than its text tells
    ghost fits: { Self → Type 0 };

    // The number that has this text.
    fn read(bytes: &[u8]) -> Option<Self>
        ensures { MatchOption result ((n : Self) → fits n → text n ≢ bytes.now) (λ n. fits n × (text n ≡ bytes.now)) };

    // Puts the text.
    fn write<S: Sink>(self, sink: &mut S)
        requires { S.Sink.has_room sink.old (text self) }
        ensures { S.Sink.takes sink.old (text self) sink.new };

    // all texts are of one length
    ghost even: { (n m : Self) → length (text n) ≡ length (text m) };
}

// The two halves that a colon parts.
pub(crate) fn read_halves<H: Groups>(bytes: &[u8]) -> Option<(H, H)>
    ensures { MatchOption result ((high low : H) → H.fits high → H.fits low → H.text high ++ (58 ∷ H.text low) ≢ bytes.now) (λ p. H.fits p.0 × H.fits p.1 × (H.text p.0 ++ (58 ∷ H.text p.1) ≡ bytes.now)) }
{
    let (front, back) = bytes.split_at(bytes.len() / 2);
    let [b':', rest @ ..] = back else {
        return None;
    };
    Some((H::read(front)?, H::read(rest)?))
}

// Puts two halves with a colon between them.
pub(crate) fn write_halves<H: Groups, S: Sink>(high: H, low: H, sink: &mut S)
    requires { S.Sink.has_room sink.old (H.text high ++ (58 ∷ H.text low)) }
    ensures { S.Sink.takes sink.old (H.text high ++ (58 ∷ H.text low)) sink.new }
{
    high.write(sink);
    sink.put_byte(b':');
    low.write(sink);
}

impl Groups for u16 {
    ghost text = { group };

    ghost fits = { λ n. n < 2 ^ 16 };

    fn read(bytes: &[u8]) -> Option<Self> {
        let [a, b, c, d] = bytes else {
            return None;
        };
        let high = u16::from(read_digit(*a)?) * 4096 + u16::from(read_digit(*b)?) * 256;
        Some(high + u16::from(read_digit(*c)?) * 16 + u16::from(read_digit(*d)?))
    }

    fn write<S: Sink>(self, sink: &mut S) {
        sink.put(&[
            write_digit((self / 4096) as u8),
            write_digit((self / 256 % 16) as u8),
            write_digit((self / 16 % 16) as u8),
            write_digit((self % 16) as u8),
        ]);
    }

    ghost even = { λ n m. refl };
}

// Beside the one for `u64` and not one for both: the new form is no plainer, since std has no trait that ties a number to the one of twice its bits, and one of our own would say the same again for each.
impl Groups for u32 {
    ghost text = { groups2 };

    ghost fits = { λ n. n < 2 ^ 32 };

    fn read(bytes: &[u8]) -> Option<Self> {
        let (high, low) = read_halves::<u16>(bytes)?;
        Some(u32::from(high) * (1 << 16) + u32::from(low))
    }

    fn write<S: Sink>(self, sink: &mut S) {
        write_halves((self >> 16) as u16, (self % (1 << 16)) as u16, sink);
    }

    ghost even = { λ n m. refl };
}

impl Groups for u64 {
    ghost text = { groups4 };

    ghost fits = { λ n. n < 2 ^ 64 };

    fn read(bytes: &[u8]) -> Option<Self> {
        let (high, low) = read_halves::<u32>(bytes)?;
        Some(u64::from(high) * (1 << 32) + u64::from(low))
    }

    fn write<S: Sink>(self, sink: &mut S) {
        write_halves((self >> 32) as u32, (self % (1 << 32)) as u32, sink);
    }

    ghost even = { λ n m. refl };
}
