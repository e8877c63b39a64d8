// Addresses and their texts by example.
use crate::{Address, Ipv4, Ipv6};
use line::Point;
use std::test::Fail;
use text::Writer;

#[test]
fn the_low_half_carries(rt: HostRuntime) -> Result<(), Fail> {
    let next = Ipv6::new(0, u64::MAX).next().ok_or("no next address")?;
    assert!(rt; next.high() == 1);
    assert!(rt; next.low() == 0);
    Ok(())
}

#[test]
fn an_ipv4_text_is_read_and_written_back(rt: HostRuntime) -> Result<(), Fail> {
    let text = b"192.0.2.255";
    let address = Ipv4::read_text(text).ok_or("refused")?;
    assert!(rt; address.value() == 3221226239);
    let mut out = [0; 39];
    let mut writer = Writer::new(&mut out);
    address.write_text(&mut writer);
    assert!(rt; writer.end() == 11);
    assert!(rt; &out[0..11] == text.as_slice());
    Ok(())
}

#[test]
fn an_ipv6_text_is_read_and_written_back(rt: HostRuntime) -> Result<(), Fail> {
    let text = b"2001:0db8:0000:0000:0000:0000:0000:00ff";
    let address = Ipv6::read_text(text).ok_or("refused")?;
    assert!(rt; address.high() == 2306139568115548160);
    assert!(rt; address.low() == 255);
    let mut out = [0; 39];
    let mut writer = Writer::new(&mut out);
    address.write_text(&mut writer);
    assert!(rt; writer.end() == 39);
    assert!(rt; out == *text);
    Ok(())
}

#[test]
fn other_ipv4_texts_are_refused(rt: HostRuntime) {
    assert!(rt; Ipv4::read_text(b"01.2.3.4").is_none());
    assert!(rt; Ipv4::read_text(b"256.0.0.0").is_none());
    assert!(rt; Ipv4::read_text(b"1.2.3").is_none());
    assert!(rt; Ipv4::read_text(b"1.2.3.4.").is_none());
    assert!(rt; Ipv4::read_text(b"any").is_none());
}

#[test]
fn other_ipv6_texts_are_refused(rt: HostRuntime) {
    assert!(rt; Ipv6::read_text(b"2001:0DB8:0000:0000:0000:0000:0000:00FF").is_none());
    assert!(rt; Ipv6::read_text(b"::1").is_none());
    assert!(rt; Ipv6::read_text(b"any").is_none());
}

#[test]
fn an_address_is_its_number(rt: HostRuntime) {
    assert!(rt; u32::from(Ipv4::from(3221226239)) == 3221226239);
    let address = Ipv6::from(18446744073709551618);
    assert!(rt; address.high() == 1);
    assert!(rt; address.low() == 2);
    assert!(rt; u128::from(address) == 18446744073709551618);
}
