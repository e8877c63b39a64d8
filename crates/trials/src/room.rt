// How much a plan takes in: the last address, the last row, the last name.
use crate::telling::{declared, held, loaded, unwritten, unwritten_rows, writes};
use address::Ipv4;
use plan::Plan;
use std::test::Fail;

const LAST: u32 = u32::MAX;

// The rows of a plan, the first and the last address of its first range, and the number of the cause.
const FIRST_RANGES: [(usize, u32, u32, Option<u8>); 9] = [
    (1, 0, LAST, Some(13)),
    (1, 0, LAST - 1, Some(12)),
    (1, 1, LAST, Some(12)),
    (1, 5, 5, Some(12)),
    (2, 0, LAST, Some(13)),
    (2, 5, 6, Some(12)),
    (2, 0, LAST - 1, None),
    (2, 1, LAST, None),
    (3, 5, 6, None),
];

#[test]
fn a_first_range_leaves_an_address_and_finds_rows(rt: HostRuntime) -> Result<(), Fail> {
    for (count, low, high, wanted) in FIRST_RANGES {
        let mut rows = [unwritten(); 3];
        assert!(rt; count <= 3);
        let mut plan = Plan::open(&mut rows[0..count]);
        let before = held(rt.alloc(), &plan)?;
        assert_eq!(rt; declared(&mut plan, b"a", low, high), wanted);
        assert_eq!(rt; held(rt.alloc(), &plan)? == before, wanted.is_some());
    }
    Ok(())
}

#[test]
fn the_last_free_address_stays_elsewhere(rt: HostRuntime) -> Result<(), Fail> {
    let mut rows = [unwritten(); 2];
    let mut plan = Plan::open(&mut rows);
    assert_eq!(rt; declared(&mut plan, b"a", 0, LAST - 1), None);
    let before = held(rt.alloc(), &plan)?;
    assert_eq!(rt; declared(&mut plan, b"a", LAST, LAST), Some(13));
    assert_eq!(rt; declared(&mut plan, b"b", LAST, LAST), Some(13));
    assert_eq!(rt; declared(&mut plan, b"b", 0, LAST), Some(11));
    assert_eq!(rt; held(rt.alloc(), &plan)?, before);
    assert_eq!(rt; plan.network_of(&Ipv4::new(LAST))?, 0);
    Ok(())
}

// The name, the first and the last address of a range, the number of the cause, and the runs after it.
const STEPS: [(&[u8], u32, u32, Option<u8>, usize); 6] = [
    (b"a", 10, 20, None, 3),
    (b"b", 30, 40, None, 5),
    (b"c", 50, 60, Some(12), 5),
    (b"c", 21, 28, Some(12), 5),
    (b"b", 41, 60, None, 5),
    (b"d", 21, 29, None, 5),
];

const FULL: &[u8] = b"net,a,0.0.0.10,0.0.0.20\nnet,b,0.0.0.30,0.0.0.60\nnet,d,0.0.0.21,0.0.0.29\n";

#[test]
fn a_full_table_takes_in_what_needs_no_row(rt: HostRuntime) {
    let mut rows = [unwritten(); 5];
    let mut plan = Plan::open(&mut rows);
    for (name, low, high, wanted, runs) in STEPS {
        assert_eq!(rt; declared(&mut plan, name, low, high), wanted);
        assert_eq!(rt; plan.runs().len(), runs);
    }
    assert!(rt; writes(&plan, FULL));
}

#[test]
fn the_largest_table_fills_to_its_last_row(rt: HostRuntime) -> Result<(), Fail> {
    let mut rows = unwritten_rows(rt.alloc(), 4096)?;
    let mut plan = Plan::open(&mut rows);
    for i in 0..2048u32 {
        assert_eq!(rt; declared(&mut plan, b"a", 2 * i, 2 * i), None);
    }
    assert_eq!(rt; plan.runs().len(), 4096);
    assert_eq!(rt; declared(&mut plan, b"a", 4096, 4096), Some(12));
    assert_eq!(rt; plan.runs().len(), 4096);
    assert_eq!(rt; declared(&mut plan, b"a", 1, 1), None);
    assert_eq!(rt; plan.runs().len(), 4094);
    Ok(())
}

#[test]
fn a_plan_takes_in_twenty_four_names(rt: HostRuntime) -> Result<(), Fail> {
    let mut rows = [unwritten(); 64];
    let mut plan = Plan::open(&mut rows);
    for i in 0..24u8 {
        let at = Ipv4::new(i as u32 * 2);
        assert_eq!(rt; plan.declare(&[b'a' + i], at, at)?, i + 1);
    }
    let runs = plan.runs().len();
    assert_eq!(rt;
        loaded(&mut plan, b"net,y,0.0.1.0,0.0.1.0"),
        Err((3, 20, 1, 0))
    );
    assert_eq!(rt; declared(&mut plan, b"y", 0, 0), Some(20));
    assert_eq!(rt; declared(&mut plan, b"y", 1, 0), Some(10));
    assert_eq!(rt; plan.networks(), 24);
    assert_eq!(rt; plan.runs().len(), runs);
    assert_eq!(rt; plan.declare(b"x", Ipv4::new(256), Ipv4::new(256))?, 24);
    Ok(())
}
