// What a plan tells of addresses, names and numbers.
use crate::telling::{FINE, loaded, unwritten, unwritten6};
use address::{Ipv4, Ipv6};
use plan::Plan;
use std::test::Fail;

const NARROW: &[u8] =
    b"net,a,0.0.0.10,0.0.0.20\nnet,b,0.0.0.21,0.0.0.21\nnet,a,255.255.255.0,255.255.255.255";

const NARROW_EDGES: [(u32, u8); 9] = [
    (0, 0),
    (9, 0),
    (10, 1),
    (20, 1),
    (21, 2),
    (22, 0),
    (4294967039, 0),
    (4294967040, 1),
    (u32::MAX, 1),
];

#[test]
fn ipv4_networks_hold_their_edges(rt: HostRuntime) -> Result<(), Fail> {
    let mut rows = [unwritten(); 8];
    let mut plan = Plan::open(&mut rows);
    assert_eq!(rt; loaded(&mut plan, NARROW), FINE);
    for (value, number) in NARROW_EDGES {
        assert_eq!(rt; plan.network_of(&Ipv4::new(value))?, number);
    }
    Ok(())
}

const WIDE: &[u8] =
    b"net,a,0000:0000:0000:0000:0000:0000:0000:0000,0000:0000:0000:0000:ffff:ffff:ffff:ffff\nnet,b,0000:0000:0000:0001:0000:0000:0000:0001,0000:0000:0000:0002:0000:0000:0000:0000\n";

const WIDE_EDGES: [(u64, u64, u8); 8] = [
    (0, 0, 1),
    (0, u64::MAX, 1),
    (1, 0, 0),
    (1, 1, 2),
    (1, u64::MAX, 2),
    (2, 0, 2),
    (2, 1, 0),
    (u64::MAX, u64::MAX, 0),
];

#[test]
fn ipv6_networks_hold_their_edges(rt: HostRuntime) -> Result<(), Fail> {
    let mut rows = [unwritten6(); 8];
    let mut plan = Plan::open(&mut rows);
    assert_eq!(rt; loaded(&mut plan, WIDE), FINE);
    for (high, low, number) in WIDE_EDGES {
        assert_eq!(rt; plan.network_of(&Ipv6::new(high, low))?, number);
    }
    Ok(())
}

const NUMBERS: [(&[u8], Option<u8>); 6] = [
    (b"a", Some(1)),
    (b"b", Some(2)),
    (b"c", None),
    (b"ab", None),
    (b"any", None),
    (b"", None),
];

#[test]
fn a_declared_name_has_a_number(rt: HostRuntime) {
    let mut rows = [unwritten(); 8];
    let mut plan = Plan::open(&mut rows);
    assert_eq!(rt; loaded(&mut plan, NARROW), FINE);
    for (name, number) in NUMBERS {
        assert_eq!(rt; plan.number_of(name), number);
    }
}

#[test]
fn a_number_from_one_to_the_last_has_a_name(rt: HostRuntime) -> Result<(), Fail> {
    let mut rows = [unwritten(); 8];
    let mut plan = Plan::open(&mut rows);
    assert_eq!(rt; loaded(&mut plan, NARROW), FINE);
    assert!(rt; plan.name_of(1).ok_or("no first name")? == b"a".as_slice());
    assert!(rt; plan.name_of(2).ok_or("no second name")? == b"b".as_slice());
    for number in [0, 3, 24, 25, u8::MAX] {
        assert!(rt; plan.name_of(number).is_none());
    }
    Ok(())
}
