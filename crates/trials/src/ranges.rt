// Ranges in the wrong order, ranges that are taken, and ranges that touch.
use crate::telling::{Ending, FINE, declared, held, is_blank, loaded, unwritten, writes};
use address::Ipv4;
use plan::Plan;
use std::test::Fail;

const REVERSED: Ending = Err((2, 10, 1, 0));

const TAKEN: Ending = Err((3, 11, 1, 0));

const RANGES: [(&[u8], Ending); 13] = [
    (b"net,a,0.0.0.2,0.0.0.1", REVERSED),
    (b"net,b,0.0.0.20,0.0.0.10", REVERSED),
    (b"net,b,255.255.255.255,0.0.0.0", REVERSED),
    (b"net,B,0.0.0.20,0.0.0.10", Err((1, 18, 1, 2))),
    (b"net,b,0.0.0.5,0.0.0.10", TAKEN),
    (b"net,b,0.0.0.20,0.0.0.25", TAKEN),
    (b"net,b,0.0.0.15,0.0.0.15", TAKEN),
    (b"net,b,0.0.0.12,0.0.0.18", TAKEN),
    (b"net,b,0.0.0.10,0.0.0.20", TAKEN),
    (b"net,a,0.0.0.10,0.0.0.20", TAKEN),
    (b"net,a,0.0.0.20,0.0.0.21", TAKEN),
    (b"net,b,0.0.0.9,0.0.0.21", TAKEN),
    (b"net,b,0.0.0.0,255.255.255.255", TAKEN),
];

#[test]
fn reversed_and_taken_ranges_are_refused_before_a_full_table(rt: HostRuntime) -> Result<(), Fail> {
    let mut rows = [unwritten(); 3];
    let mut plan = Plan::open(&mut rows);
    assert_eq!(rt; loaded(&mut plan, b"net,a,0.0.0.10,0.0.0.20"), FINE);
    let before = held(rt.alloc(), &plan)?;
    for (text, wanted) in RANGES {
        assert_eq!(rt; loaded(&mut plan, text), wanted);
    }
    assert_eq!(rt;
        loaded(&mut plan, b"net,b,0.0.0.5,0.0.0.9"),
        Err((3, 12, 1, 0))
    );
    assert_eq!(rt; held(rt.alloc(), &plan)?, before);
    Ok(())
}

// The name, the first and the last address of a range, and the runs of the line with it.
const TOUCHING: [(&[u8], u32, u32, usize); 9] = [
    (b"a", 10, 20, 3),
    (b"a", 21, 30, 3),
    (b"a", 5, 9, 3),
    (b"b", 51, 60, 5),
    (b"a", 61, 70, 6),
    (b"a", 40, 49, 8),
    (b"a", 31, 39, 6),
    (b"c", 50, 50, 6),
    (b"a", 0, 4, 5),
];

const MERGED: &[u8] =
    b"net,a,0.0.0.0,0.0.0.49\nnet,a,0.0.0.61,0.0.0.70\nnet,b,0.0.0.51,0.0.0.60\nnet,c,0.0.0.50,0.0.0.50\n";

#[test]
fn ranges_of_one_network_that_touch_become_one_run(rt: HostRuntime) {
    let mut rows = [unwritten(); 9];
    let mut plan = Plan::open(&mut rows);
    for (name, low, high, runs) in TOUCHING {
        assert_eq!(rt; declared(&mut plan, name, low, high), None);
        assert_eq!(rt; plan.runs().len(), runs);
    }
    assert!(rt; writes(&plan, MERGED));
    for row in &rows[5..9] {
        assert!(rt; is_blank(row));
    }
}
