// Plan texts by example.
use crate::write_plan;
use address::Ipv4;
use line::Run;
use plan::Plan;
use std::test::Fail;

#[test]
fn networks_go_by_number_and_runs_by_address(rt: HostRuntime) -> Result<(), Fail> {
    let mut rows = [Run::blank(0); 8];
    let mut plan = Plan::open(&mut rows);
    assert!(rt;
        plan.declare(b"lan", Ipv4::new(3221225984), Ipv4::new(3221226239))
            .is_ok()
    );
    assert!(rt;
        plan.declare(b"dmz", Ipv4::new(167772160), Ipv4::new(167772415))
            .is_ok()
    );
    assert!(rt;
        plan.declare(b"lan", Ipv4::new(167772416), Ipv4::new(167772416))
            .is_ok()
    );
    let text =
        b"net,lan,10.0.1.0,10.0.1.0\nnet,lan,192.0.2.0,192.0.2.255\nnet,dmz,10.0.0.0,10.0.0.255\n";
    let mut out = [0; 84];
    let Ok(end) = write_plan(&plan, &mut out) else {
        return Err(Fail::new("refused"));
    };
    assert!(rt; end == 84);
    assert!(rt; out == *text);
    Ok(())
}

#[test]
fn one_byte_too_few_is_refused(rt: HostRuntime) {
    let first = Ipv4::new(0);
    let mut rows = [Run::blank(0); 8];
    let mut plan = Plan::open(&mut rows);
    assert!(rt; plan.declare(b"lan", first, first).is_ok());
    let mut short = [7; 23];
    assert!(rt; write_plan(&plan, &mut short).is_err());
    assert!(rt; short == [7; 23]);
    let mut out = [7; 24];
    assert!(rt; write_plan(&plan, &mut out).is_ok());
    assert!(rt; out == *b"net,lan,0.0.0.0,0.0.0.0\n");
}
