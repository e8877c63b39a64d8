// Rows, fields and numbers by example.
use crate::{Fields, Room, Rows, Sink, Spendable, Writer, put_number, read_number};
use std::test::Fail;

#[test]
fn an_empty_text_has_no_row(rt: HostRuntime) {
    let mut rows = Rows::new(b"");
    assert!(rt; rows.next().is_none());
}

#[test]
fn the_last_row_needs_no_end(rt: HostRuntime) -> Result<(), Fail> {
    let mut rows = Rows::new(b"a\r\n\n#b");
    let first = rows.next().ok_or("no first row")?;
    assert!(rt; first.bytes == b"a\r".as_slice());
    assert!(rt; !first.is_passed_over());
    let second = rows.next().ok_or("no second row")?;
    assert!(rt; second.is_passed_over());
    assert!(rt; second.start == 3 && second.line == 2);
    let third = rows.next().ok_or("no third row")?;
    assert!(rt; third.bytes == b"#b".as_slice());
    assert!(rt; third.is_passed_over());
    assert!(rt; rows.next().is_none());
    Ok(())
}

#[test]
fn the_last_field_may_be_empty(rt: HostRuntime) -> Result<(), Fail> {
    let mut fields = Fields::new(b"net,");
    let first = fields.next().ok_or("no first field")?;
    assert!(rt; first.bytes == b"net".as_slice());
    let second = fields.next().ok_or("no second field")?;
    assert!(rt; second.bytes.is_empty());
    assert!(rt; second.number == 2);
    assert!(rt; fields.next().is_none());
    Ok(())
}

#[test]
fn numbers_are_read(rt: HostRuntime) {
    assert_eq!(rt; read_number(b"0", 255), Some(0));
    assert_eq!(rt; read_number(b"255", 255), Some(255));
    assert_eq!(rt; read_number(b"4294967295", u32::MAX), Some(u32::MAX));
}

#[test]
fn other_texts_are_no_numbers(rt: HostRuntime) {
    assert_eq!(rt; read_number(b"", 255), None);
    assert_eq!(rt; read_number(b"256", 255), None);
    assert_eq!(rt; read_number(b"007", 255), None);
    assert_eq!(rt; read_number(b"+7", 255), None);
    assert_eq!(rt; read_number(b"4294967296", u32::MAX), None);
    assert_eq!(rt; read_number(&[b'9'; 300], u32::MAX), None);
}

#[test]
fn texts_are_written_one_after_another(rt: HostRuntime) {
    let mut out = [b'.'; 9];
    let mut writer = Writer::new(&mut out);
    writer.put(b"net");
    writer.put_byte(b',');
    put_number(1040, &mut writer);
    assert_eq!(rt; writer.end(), 8);
    assert!(rt; out == *b"net,1040.");
}

#[test]
fn a_text_is_written_at_a_place(rt: HostRuntime) {
    let mut out = [b'.'; 9];
    let mut writer = Writer::starting_at(&mut out, 4);
    writer.put(b"net");
    assert_eq!(rt; writer.end(), 7);
    assert!(rt; !writer.is_spent());
    assert!(rt; out == *b"....net..");
}

#[test]
fn a_room_is_left_as_texts_leave_it(rt: HostRuntime) {
    let mut room = Room::new(8);
    room.put(b"net");
    room.put_byte(b',');
    assert_eq!(rt; room.left(), Some(4));
    put_number(1040, &mut room);
    assert_eq!(rt; room.left(), Some(0));
    room.put_byte(b'.');
    assert_eq!(rt; room.left(), None);
    assert!(rt; room.is_spent());
}
