// Plans that are shut: lent no row, or more rows than a plan may have.
use crate::telling::{cause, declared, loaded, unwritten, unwritten_rows};
use address::Ipv4;
use line::Run;
use plan::{Plan, check_rows};
use planwrite::write_plan;
use std::test::Fail;

// Fails where what is said of a shut plan is not so.
fn holds(so: bool) -> Result<(), Fail> {
    if so {
        Ok(())
    } else {
        Err(Fail::new("a call of a shut plan is not refused"))
    }
}

// Checks that every call of a plan over these rows is refused.
fn check_shut(rows: &mut [Run<Ipv4, u8>]) -> Result<(), Fail> {
    let mut plan = Plan::open(rows);
    holds(plan.is_shut())?;
    holds(plan.networks() == 0)?;
    holds(plan.runs().len() == 0)?;
    holds(declared(&mut plan, b"a", 1, 2) == Some(2))?;
    holds(declared(&mut plan, b"A", 2, 1) == Some(2))?;
    holds(loaded(&mut plan, b"net,a,0.0.0.1,0.0.0.2") == Err((3, 2, 0, 0)))?;
    holds(loaded(&mut plan, b"") == Err((3, 2, 0, 0)))?;
    holds(loaded(&mut plan, &[b'#'; 16385]) == Err((3, 2, 0, 0)))?;
    holds(cause(plan.network_of(&Ipv4::new(1))) == Some(2))?;
    holds(plan.number_of(b"a").is_none())?;
    holds(plan.name_of(1).is_none())?;
    let mut out = [7; 40];
    holds(cause(write_plan(&plan, &mut out)) == Some(2))?;
    holds(out == [7; 40])
}

#[test]
fn a_plan_has_1_to_4096_rows(rt: HostRuntime) {
    assert_eq!(rt; cause(check_rows(0)), Some(1));
    assert_eq!(rt; cause(check_rows(1)), None);
    assert_eq!(rt; cause(check_rows(4096)), None);
    assert_eq!(rt; cause(check_rows(4097)), Some(1));
    assert_eq!(rt; cause(check_rows(usize::MAX)), Some(1));
}

#[test]
fn a_plan_without_rows_is_shut() -> Result<(), Fail> {
    let mut rows: [Run<Ipv4, u8>; 0] = [];
    check_shut(&mut rows)
}

#[test]
fn a_plan_of_4097_rows_is_shut_and_leaves_them(rt: HostRuntime) -> Result<(), Fail> {
    let mut rows = unwritten_rows(rt.alloc(), 4097)?;
    check_shut(&mut rows)?;
    assert_eq!(rt; rows.len(), 4097);
    for row in &rows {
        assert!(rt; *row == unwritten());
    }
    Ok(())
}
