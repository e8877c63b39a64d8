// Heads cut at each edge, for both kinds.
use crate::{Packet, read_packet};
use address::{Address, Ipv4, Ipv6};
use refusal::Refusal;
use std::test::Fail;

// The cause for which the bytes are refused; none where they are read.
fn cause<A: Address>(bytes: &[u8]) -> Option<Refusal> {
    read_packet::<A>(bytes).err()
}

#[test]
fn an_ipv4_head_ends_after_its_options_and_its_port(rt: HostRuntime) -> Result<(), Fail> {
    let head = [
        0x46, 0, 0, 28, 0, 0, 0x40, 0, 64, 17, 0, 0, 192, 0, 2, 1, 198, 51, 100, 2, 1, 1, 1, 1,
        0x9c, 0x40, 0x01, 0xbb,
    ];
    for count in [0, 1, 23, 24, 27] {
        assert_eq!(rt;
            cause::<Ipv4>(&head[0..count]),
            Some(Refusal::PacketTooShort)
        );
    }
    let packet = read_packet::<Ipv4>(&head)?;
    assert_eq!(rt; packet.source().value(), 0xc0000201);
    assert_eq!(rt; packet.destination().value(), 0xc6336402);
    assert_eq!(rt; packet.protocol(), 17);
    assert_eq!(rt; packet.port(), 443);
    Ok(())
}

#[test]
fn an_ipv6_head_ends_after_its_port(rt: HostRuntime) -> Result<(), Fail> {
    let mut head = [0; 44];
    head[0] = 0x60;
    head[6] = 6;
    head[8] = 0x20;
    head[23] = 1;
    head[24] = 0xff;
    head[39] = 2;
    head[43] = 80;
    for count in [0, 1, 39, 40, 43] {
        assert_eq!(rt;
            cause::<Ipv6>(&head[0..count]),
            Some(Refusal::PacketTooShort)
        );
    }
    let packet = read_packet::<Ipv6>(&head)?;
    assert_eq!(rt; packet.source().high(), 0x2000000000000000);
    assert_eq!(rt; packet.source().low(), 1);
    assert_eq!(rt; packet.destination().high(), 0xff00000000000000);
    assert_eq!(rt; packet.destination().low(), 2);
    assert_eq!(rt; packet.port(), 80);
    Ok(())
}

#[test]
fn a_protocol_without_ports_has_port_zero(rt: HostRuntime) {
    let packet = Packet::new(Ipv4::new(1), Ipv4::new(2), 1, 443);
    assert_eq!(rt; packet.port(), 0);
    assert_eq!(rt; packet.service().protocol(), 1);
}
