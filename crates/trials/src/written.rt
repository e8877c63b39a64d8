// Plans that are written, and loaded again.
use crate::telling::{FINE, cause, held, loaded, unwritten, unwritten6};
use address::Address;
use line::Run;
use plan::Plan;
use planwrite::write_plan;
use std::alloc::Global;
use std::test::Fail;

// Fails where the text, loaded over the one rows, does not make so many runs, or where the text that is written then and loaded over the other rows makes another plan.
fn reads_back<A: Address>(
    heap: Global,
    rows: &mut [Run<A, u8>],
    fresh_rows: &mut [Run<A, u8>],
    text: &[u8],
    runs: usize,
) -> Result<(), Fail> {
    let mut plan = Plan::open(rows);
    if loaded(&mut plan, text) != FINE || plan.runs().len() != runs {
        return Err(Fail::new("a text makes another plan"));
    }
    let before = held(heap, &plan)?;
    let mut fresh = Plan::open(fresh_rows);
    if loaded(&mut fresh, before.text()) != FINE || held(heap, &fresh)? != before {
        return Err(Fail::new("a written text makes another plan"));
    }
    Ok(())
}

const NARROW: &[u8] =
    b"net,b,0.0.0.30,0.0.0.40\nnet,a,0.0.0.0,0.0.0.9\nnet,b,0.0.0.10,0.0.0.20\nnet,long-name-12,192.168.0.0,192.168.255.255\n";

#[test]
fn an_ipv4_plan_reads_back(rt: HostRuntime) -> Result<(), Fail> {
    let mut rows = [unwritten(); 7];
    let mut fresh_rows = [unwritten(); 7];
    reads_back(rt.alloc(), &mut rows, &mut fresh_rows, NARROW, 7)
}

const WIDE: &[u8] =
    b"net,b,2001:0db8:0000:0000:0000:0000:0000:0000,2001:0db8:0000:0000:ffff:ffff:ffff:ffff\nnet,a,0000:0000:0000:0000:0000:0000:0000:0000,0000:0000:0000:0000:0000:0000:0000:0000\nnet,b,ffff:ffff:ffff:ffff:ffff:ffff:ffff:ffff,ffff:ffff:ffff:ffff:ffff:ffff:ffff:ffff\n";

#[test]
fn an_ipv6_plan_reads_back(rt: HostRuntime) -> Result<(), Fail> {
    let mut rows = [unwritten6(); 5];
    let mut fresh_rows = [unwritten6(); 5];
    reads_back(rt.alloc(), &mut rows, &mut fresh_rows, WIDE, 5)
}

#[test]
fn a_text_that_does_not_fit_is_not_begun(rt: HostRuntime) -> Result<(), Fail> {
    let mut rows = [unwritten(); 7];
    let mut plan = Plan::open(&mut rows);
    let text = b"net,a,0.0.0.0,0.0.0.9\nnet,b,0.0.0.10,0.0.0.20\n";
    assert_eq!(rt; loaded(&mut plan, text), FINE);
    let mut short = [7; 45];
    assert_eq!(rt; cause(write_plan(&plan, &mut short)), Some(23));
    assert!(rt; short == [7; 45]);
    let mut none = [7; 0];
    assert_eq!(rt; cause(write_plan(&plan, &mut none)), Some(23));
    let mut long = [7; 49];
    assert_eq!(rt; write_plan(&plan, &mut long)?, 46);
    assert!(rt; &long[0..46] == text.as_slice());
    assert!(rt; long[46] == 7 && long[47] == 7 && long[48] == 7);
    Ok(())
}
