// A short list by example.
use crate::Few;

#[test]
fn values_go_in_and_out(rt: HostRuntime) {
    let mut few: Few<u8, 3> = Few::new(9);
    assert_eq!(rt; few.len(), 0);
    few.push(1);
    few.push(2);
    few.insert(0, 5);
    assert!(rt; few.as_slice() == [5, 1, 2].as_slice());
    assert_eq!(rt; few.remove(1), 1);
    few.set(1, 7);
    assert!(rt; few.as_slice() == [5, 7].as_slice());
}
