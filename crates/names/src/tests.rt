// Texts that are names, and texts that are not.
use crate::{Names, is_well_formed};

#[test]
fn names_have_one_to_twelve_letters(rt: HostRuntime) {
    assert!(rt; is_well_formed(b"web"));
    assert!(rt; is_well_formed(b"a-0123456789"));
    assert!(rt; !is_well_formed(b"a-01234567890"));
    assert!(rt; !is_well_formed(b""));
    assert!(rt; !is_well_formed(b"Web"));
    assert!(rt; !is_well_formed(b"a b"));
    assert!(rt; !is_well_formed(b"any"));
    assert!(rt; !is_well_formed(b"elsewhere"));
    assert!(rt; is_well_formed(b"elsewher"));
}

#[test]
fn no_names_have_no_numbers(rt: HostRuntime) {
    let names = Names::new();
    assert!(rt; names.find(b"web").is_none());
    assert!(rt; names.text(0).is_none());
    assert!(rt; names.text(1).is_none());
    assert_eq!(rt; names.number(b"web"), 1);
}

#[test]
fn names_have_their_numbers(rt: HostRuntime) {
    let mut names = Names::new();
    names.add(b"web");
    names.add(b"db");
    assert_eq!(rt; names.count(), 2);
    assert_eq!(rt; names.find(b"db"), Some(2));
    assert_eq!(rt; names.number(b"app"), 3);
    assert!(rt; names.text(1) == Some(b"web".as_slice()));
    for (i, name) in names.as_slice().iter().enumerate() {
        assert_eq!(rt; names.find(name.text()), Some(i as u8 + 1));
    }
}
