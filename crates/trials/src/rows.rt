// Rows of a plan text that are no declarations, byte by byte and by their shape.
use crate::telling::{Ending, FINE, held, loaded, refuses_each, unwritten};
use plan::Plan;
use std::test::Fail;

#[test]
fn a_byte_alone_is_a_comment_or_an_empty_row_or_a_fault(rt: HostRuntime) -> Result<(), Fail> {
    let mut rows = [unwritten(); 4];
    let mut plan = Plan::open(&mut rows);
    let before = held(rt.alloc(), &plan)?;
    for byte in 0..=255u8 {
        let passed = byte == b'#' || byte == b'\n';
        let wanted = if passed { FINE } else { NO_ROW };
        assert_eq!(rt; loaded(&mut plan, &[byte]), wanted);
    }
    assert_eq!(rt; held(rt.alloc(), &plan)?, before);
    Ok(())
}

const NO_ROW: Ending = Err((2, 17, 1, 0));

const SHAPES: [(&[u8], Ending); 15] = [
    (b",", NO_ROW),
    (b",,", NO_ROW),
    (b",,,", NO_ROW),
    (b",,,,", NO_ROW),
    (b",,,,,,,,,,,,,,,,", NO_ROW),
    (b"net", NO_ROW),
    (b"net,a,0.0.0.1", NO_ROW),
    (b"net,a,0.0.0.1,0.0.0.2,", NO_ROW),
    (b"net,a,0.0.0.1,0.0.0.2,a", NO_ROW),
    (b"rule,a,0.0.0.1,0.0.0.2", NO_ROW),
    (b"Net,a,0.0.0.1,0.0.0.2", NO_ROW),
    (b" net,a,0.0.0.1,0.0.0.2", NO_ROW),
    (b"net\r,a,0.0.0.1,0.0.0.2", NO_ROW),
    (b"\r\nnet,a,0.0.0.1,0.0.0.2\n", NO_ROW),
    (b"net,a,0.0.0.1,0.0.0.2\r\n", Err((1, 18, 1, 4))),
];

#[test]
fn a_row_of_another_shape_is_refused(rt: HostRuntime) -> Result<(), Fail> {
    let mut rows = [unwritten(); 4];
    let mut plan = Plan::open(&mut rows);
    refuses_each(rt.alloc(), &mut plan, &SHAPES)
}
