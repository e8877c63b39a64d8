// Reading a packet from the bytes of its head.
ghost use Rattle.std.specs.Prelude.{◌≡◌, ◌+◌, ◌<◌, ◌≤◌, length, Ok, Err, MatchOption, MatchResult};
ghost use Rattle.address.specs.Layouts.{number};
ghost use Rattle.packet.specs.Heads.{head_of, read_head, Settled};

use crate::Packet;
use address::Address;
use refusal::Refusal;
use service::carries_ports;

// The port in the third and the fourth byte after the header; none where fewer than four bytes follow it.
fn read_port(bytes: &[u8], end: usize) -> Option<u16>
    requires { end ≤ length bytes.now }
    ensures { MatchOption result (length bytes.now < end + 4) (λ port. (end + 4 ≤ length bytes.now) × (port ≡ number bytes.now (end + 2) 2)) }
{
    let [_, _, high, low, ..] = &bytes[end..] else {
        return None;
    };
    Some(u16::from_be_bytes([*high, *low]))
}

// The packet whose head the bytes begin with; what follows the head does not matter.
pub fn read_packet<A: Address>(bytes: &[u8]) -> Result<Packet<A>, Refusal>
    ensures reads { MatchResult result (λ p. read_head A.Address.layout bytes.now ≡ Ok (head_of A.Point.place p)) (λ e. read_head A.Address.layout bytes.now ≡ Err e) }
    ensures settled { Settled A.Address.layout bytes.now }
{
    let [first, ..] = bytes else {
        return Err(Refusal::PacketTooShort);
    };
    if !A::begins(*first) {
        return Err(Refusal::WrongHeader);
    }
    let header = A::read_header(bytes).ok_or(Refusal::PacketTooShort)?;
    if header.later {
        return Err(Refusal::LaterFragment);
    }
    if !carries_ports(header.protocol) {
        return Ok(Packet::new(header.source, header.destination, header.protocol, 0));
    }
    let port = read_port(bytes, header.end).ok_or(Refusal::PacketTooShort)?;
    Ok(Packet::new(header.source, header.destination, header.protocol, port))
}
