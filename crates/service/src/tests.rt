// The edges of the scale of services.
use crate::Service;
use line::Point;
use std::test::Fail;

#[test]
fn a_protocol_ends_where_the_next_begins(rt: HostRuntime) -> Result<(), Fail> {
    let Some(after) = Service::new(6, u16::MAX).next() else {
        return Err(Fail::new("none after 6/65535"));
    };
    assert_eq!(rt; after.protocol(), 7);
    assert_eq!(rt; after.port(), 0);
    let Some(before) = after.previous() else {
        return Err(Fail::new("none before 7/0"));
    };
    assert_eq!(rt; before.protocol(), 6);
    assert_eq!(rt; before.port(), u16::MAX);
    Ok(())
}

#[test]
fn the_scale_has_two_ends(rt: HostRuntime) {
    assert!(rt; <Service as Point>::first().previous().is_none());
    assert!(rt; <Service as Point>::last().next().is_none());
}
