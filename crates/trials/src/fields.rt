// Fields of a declaration that are no names and no addresses.
use crate::telling::{Ending, FINE, held, loaded, refuses_each, unwritten, unwritten6};
use plan::Plan;
use std::alloc::{AllocError, Global};
use std::test::Fail;

const NO_NAME: Ending = Err((1, 18, 1, 2));

const NO_LOW: Ending = Err((1, 18, 1, 3));

const NO_HIGH: Ending = Err((1, 18, 1, 4));

const FIELDS: [(&[u8], Ending); 18] = [
    (b"net,,0.0.0.1,0.0.0.2", NO_NAME),
    (b"net,any,0.0.0.1,0.0.0.2", NO_NAME),
    (b"net,elsewhere,0.0.0.1,0.0.0.2", NO_NAME),
    (b"net,Lan,0.0.0.1,0.0.0.2", NO_NAME),
    (b"net,lan ,0.0.0.1,0.0.0.2", NO_NAME),
    (b"net,lan\xff,0.0.0.1,0.0.0.2", NO_NAME),
    (b"net,a-01234567890,0.0.0.1,0.0.0.2", NO_NAME),
    (b"net,any,x,x", NO_NAME),
    (b"net,a,x,x", NO_LOW),
    (b"net,a,,0.0.0.2", NO_LOW),
    (b"net,a,01.2.3.4,1.2.3.4", NO_LOW),
    (b"net,a,256.0.0.0,255.255.255.255", NO_LOW),
    (
        b"net,a,0000:0000:0000:0000:0000:0000:0000:0001,0.0.0.2",
        NO_LOW,
    ),
    (b"net,a,0.0.0.1,", NO_HIGH),
    (b"net,a,0.0.0.1,1.2.3.04", NO_HIGH),
    (b"net,a,0.0.0.1,1.2.3.4.", NO_HIGH),
    (b"net,a,0.0.0.1,1.2.3.256", NO_HIGH),
    (
        b"net,a,0.0.0.1,0000:0000:0000:0000:0000:0000:0000:0001",
        NO_HIGH,
    ),
];

#[test]
fn the_first_malformed_field_from_the_left_is_told(rt: HostRuntime) -> Result<(), Fail> {
    let mut rows = [unwritten(); 4];
    let mut plan = Plan::open(&mut rows);
    refuses_each(rt.alloc(), &mut plan, &FIELDS)
}

#[test]
fn a_name_of_twelve_bytes_is_taken_in(rt: HostRuntime) {
    let mut rows = [unwritten(); 4];
    let mut plan = Plan::open(&mut rows);
    let text = b"net,a-0123456789,0.0.0.1,0.0.0.2";
    assert_eq!(rt; loaded(&mut plan, text), FINE);
    assert_eq!(rt; plan.number_of(b"a-0123456789"), Some(1));
    assert!(rt; plan.number_of(b"a-01234567890").is_none());
}

// A row with a digit that stands 400 times between two texts.
fn long_row(heap: Global, front: &[u8], digit: u8, back: &[u8]) -> Result<Vec<u8>, AllocError> {
    let mut row = front.to_vec(heap)?;
    row.extend_from_slice(&[digit; 400])?;
    row.extend_from_slice(back)?;
    Ok(row)
}

const LONG: [(&[u8], &[u8], Ending); 4] = [
    (b"net,a,", b".0.0.1,0.0.0.2", NO_LOW),
    (b"net,a,0.0.0.", b",0.0.0.2", NO_LOW),
    (b"net,a,0.0.0.1,", b".0.0.2", NO_HIGH),
    (b"net,a,0.0.0.1,0.0.0.", b"\n", NO_HIGH),
];

#[test]
fn numbers_of_hundreds_of_digits_are_refused(rt: HostRuntime) -> Result<(), Fail> {
    let mut rows = [unwritten(); 4];
    let mut plan = Plan::open(&mut rows);
    let before = held(rt.alloc(), &plan)?;
    for (front, back, wanted) in LONG {
        let nines = long_row(rt.alloc(), front, b'9', back)?;
        assert_eq!(rt; loaded(&mut plan, &nines), wanted);
        let zeros = long_row(rt.alloc(), front, b'0', back)?;
        assert_eq!(rt; loaded(&mut plan, &zeros), wanted);
    }
    assert_eq!(rt; held(rt.alloc(), &plan)?, before);
    Ok(())
}

const WIDE: [(&[u8], Ending); 4] = [
    (b"net,a,0.0.0.1,0.0.0.2", NO_LOW),
    (b"net,a,::1,::2", NO_LOW),
    (
        b"net,a,0000:0000:0000:0000:0000:0000:0000:000A,0000:0000:0000:0000:0000:0000:0000:000b",
        NO_LOW,
    ),
    (
        b"net,a,0000:0000:0000:0000:0000:0000:0000:000a,0000:0000:0000:0000:0000:0000:0000:00b",
        NO_HIGH,
    ),
];

#[test]
fn an_ipv6_plan_takes_only_whole_addresses_in_lower_case(rt: HostRuntime) -> Result<(), Fail> {
    let mut rows = [unwritten6(); 4];
    let mut plan = Plan::open(&mut rows);
    refuses_each(rt.alloc(), &mut plan, &WIDE)
}
