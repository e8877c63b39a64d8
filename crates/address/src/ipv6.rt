// IPv6 addresses.
ghost use Rattle.std.specs.Prelude.{◌≡◌, ◌+◌, ◌*◌, ◌/◌, ◌%◌, ◌<◌, ◌^◌};
ghost use Rattle.std.proofs.Common.{ap, refl};
ghost use Rattle.address.specs.Layouts.{layout6};
ghost use Rattle.address.specs.Texts.{text6};
ghost use Rattle.address.specs.Groups.{short6, unparted6, same8};
ghost use Rattle.address.specs.Heads.{steady6};

use crate::bytes::bytes_at;
use crate::hex::{read_halves, write_halves};
use crate::{Address, Header};
use line::Point;
use text::Sink;

// An address by its number, the first group of its text the highest.
#[derive(Clone, Copy, PartialEq, Eq, PartialOrd, Ord)]
pub struct Ipv6 {
    value: u128,
    ghost fits: { value < 2 ^ 128 },
}

impl Ipv6 {
    // The address with these halves.
    pub fn new(high: u64, low: u64) -> Self
        ensures { result.value ≡ high * 2 ^ 64 + low }
    {
        Ipv6 {
            value: u128::from(high) * (1 << 64) + u128::from(low),
        }
    }

    // The half with the first four groups.
    pub fn high(&self) -> u64
        ensures { result ≡ self.now.value / 2 ^ 64 }
    {
        (self.value >> 64) as u64
    }

    // The half with the last four groups.
    pub fn low(&self) -> u64
        ensures { result ≡ self.now.value % 2 ^ 64 }
    {
        (self.value % (1 << 64)) as u64
    }
}

// These two and the `Point` stand beside those of `Ipv4` and not as one for both: std's numbers share no trait with `MAX` and `checked_add`, and one of our own would say the same once more for each.
impl From<u128> for Ipv6 {
    ghost from_gives = { λ value a. a.value ≡ value };

    fn from(value: u128) -> Self {
        Ipv6 { value }
    }
}

impl From<Ipv6> for u128 {
    ghost from_gives = { λ a value. value ≡ a.value };

    fn from(address: Ipv6) -> u128 {
        address.value
    }
}

impl Point for Ipv6 {
    ghost size = { 2 ^ 128 };

    ghost place = { λ a. a.value };

    fn first() -> Self {
        Ipv6 { value: 0 }
    }

    fn last() -> Self {
        Ipv6 { value: u128::MAX }
    }

    fn next(&self) -> Option<Self> {
        self.value.checked_add(1).map(Ipv6::from)
    }

    fn previous(&self) -> Option<Self> {
        self.value.checked_sub(1).map(Ipv6::from)
    }

    ghost inside = { λ a. a.fits };

    ghost equal_by_place = { λ a b. refl };

    ghost ordered_by_place = { λ a b. refl };
}

impl Address for Ipv6 {
    ghost text = { λ a. text6 (a.value / 2 ^ 64) (a.value % 2 ^ 64) };

    fn read_text(bytes: &[u8]) -> Option<Self> {
        let (high, low) = read_halves(bytes)?;
        Some(Ipv6::new(high, low))
    }

    fn write_text<S: Sink>(&self, sink: &mut S) {
        write_halves(self.high(), self.low(), sink);
    }

    ghost layout = { layout6 };

    fn begins(first: u8) -> bool {
        first / 16 == 6
    }

    fn read_header(bytes: &[u8]) -> Option<Header<Self>> {
        let first = *bytes.first()?;
        if !Self::begins(first) || bytes.len() < 40 {
            return None;
        }
        Some(Header {
            source: Ipv6::from(u128::from_be_bytes(bytes_at(bytes, 8))),
            destination: Ipv6::from(u128::from_be_bytes(bytes_at(bytes, 24))),
            protocol: bytes[6],
            end: 40,
            later: false,
        })
    }

    ghost short = { λ a. short6 (a.value / 2 ^ 64) (a.value % 2 ^ 64) };

    ghost plain = { λ a. unparted6 (a.value / 2 ^ 64) (a.value % 2 ^ 64) };

    ghost tells = { λ a b. same8 a.value b.value a.fits b.fits };

    ghost told = { λ a b. ap (λ n. text6 (n / 2 ^ 64) (n % 2 ^ 64)) };

    ghost steady = { steady6 };
}
