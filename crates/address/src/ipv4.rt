// IPv4 addresses.
ghost use Rattle.std.specs.Prelude.{◌≡◌, ◌+◌, ◌<◌, ◌^◌};
ghost use Rattle.std.proofs.Common.{ap, refl};
ghost use Rattle.address.specs.Layouts.{layout4};
ghost use Rattle.address.specs.Texts.{text4};
ghost use Rattle.address.specs.Dots.{short4, unparted4, same4};
ghost use Rattle.address.specs.Heads.{steady4};

use crate::bytes::bytes_at;
use crate::dotted::{read_byte, read_dotted, write_dotted};
use crate::{Address, Header};
use line::Point;
use text::{Sink, put_number};

// An address by its number, the first byte of its text the highest.
#[derive(Clone, Copy, PartialEq, Eq, PartialOrd, Ord)]
pub struct Ipv4 {
    value: u32,
    ghost fits: { value < 2 ^ 32 },
}

impl Ipv4 {
    // The address with this number.
    pub fn new(value: u32) -> Self
        ensures { result.value ≡ value }
    {
        Ipv4 { value }
    }

    // The number of the address.
    pub fn value(&self) -> u32
        ensures { result ≡ self.now.value }
    {
        self.value
    }
}

// These two and the `Point` stand beside those of `Ipv6`, where a line says why they are not one for both.
impl From<u32> for Ipv4 {
    ghost from_gives = { λ value a. a.value ≡ value };

    fn from(value: u32) -> Self {
        Ipv4::new(value)
    }
}

impl From<Ipv4> for u32 {
    ghost from_gives = { λ a value. value ≡ a.value };

    fn from(address: Ipv4) -> u32 {
        address.value()
    }
}

impl Point for Ipv4 {
    ghost size = { 2 ^ 32 };

    ghost place = { λ a. a.value };

    fn first() -> Self {
        Ipv4 { value: 0 }
    }

    fn last() -> Self {
        Ipv4 { value: u32::MAX }
    }

    fn next(&self) -> Option<Self> {
        self.value.checked_add(1).map(Ipv4::new)
    }

    fn previous(&self) -> Option<Self> {
        self.value.checked_sub(1).map(Ipv4::new)
    }

    ghost inside = { λ a. a.fits };

    ghost equal_by_place = { λ a b. refl };

    ghost ordered_by_place = { λ a b. refl };
}

impl Address for Ipv4 {
    ghost text = { λ a. text4 a.value };

    fn read_text(bytes: &[u8]) -> Option<Self> {
        let (a, rest) = read_dotted(bytes)?;
        let (b, rest) = read_dotted(rest)?;
        let (c, rest) = read_dotted(rest)?;
        let d = read_byte(rest)?;
        Some(Ipv4::from(u32::from_be_bytes([a, b, c, d])))
    }

    fn write_text<S: Sink>(&self, sink: &mut S) {
        let [a, b, c, d] = self.value.to_be_bytes();
        write_dotted(a, sink);
        write_dotted(b, sink);
        write_dotted(c, sink);
        put_number(usize::from(d), sink);
    }

    ghost layout = { layout4 };

    fn begins(first: u8) -> bool {
        first / 16 == 4 && first % 16 >= 5
    }

    fn read_header(bytes: &[u8]) -> Option<Header<Self>> {
        let first = *bytes.first()?;
        let end = usize::from(first % 16) * 4;
        if !Self::begins(first) || bytes.len() < end {
            return None;
        }
        Some(Header {
            source: Ipv4::from(u32::from_be_bytes(bytes_at(bytes, 12))),
            destination: Ipv4::from(u32::from_be_bytes(bytes_at(bytes, 16))),
            protocol: bytes[9],
            end,
            later: u16::from_be_bytes(bytes_at(bytes, 6)) % 8192 > 0,
        })
    }

    ghost short = { λ a. short4 a.value a.fits };

    ghost plain = { λ a. unparted4 a.value a.fits };

    ghost tells = { λ a b. same4 a.value b.value a.fits b.fits };

    ghost told = { λ a b. ap text4 };

    ghost steady = { steady4 };
}
