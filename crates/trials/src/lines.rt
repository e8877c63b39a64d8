// Texts of several rows: the line of a fault, what is declared before it, and how long a text may be.
use crate::telling::{Ending, FINE, held, loaded, unwritten, writes};
use plan::Plan;
use std::alloc::{AllocError, Global};
use std::test::Fail;

// A text, how its load ends, and the text of the plan after it.
const TEXTS: [(&[u8], Ending, &[u8]); 11] = [
    (b"", FINE, b""),
    (b"\n", FINE, b""),
    (b"\n\n#\n# net,a,0.0.0.1,0.0.0.2", FINE, b""),
    (b"net,a,0.0.0.1,0.0.0.2", FINE, b"net,a,0.0.0.1,0.0.0.2\n"),
    (b"net,a,0.0.0.1,0.0.0.2\n", FINE, b"net,a,0.0.0.1,0.0.0.2\n"),
    (
        b"\nnet,b,0.0.0.3,0.0.0.4\n\nnet,a,0.0.0.1,0.0.0.2",
        FINE,
        b"net,b,0.0.0.3,0.0.0.4\nnet,a,0.0.0.1,0.0.0.2\n",
    ),
    (b"\n#\n\nx\n", Err((2, 17, 4, 0)), b""),
    (b"\n#\n\nx", Err((2, 17, 4, 0)), b""),
    (
        b"net,a,0.0.0.1,0.0.0.2\n\n# x\nnet,b,0.0.0.5,0.0.0.\nnet,c,0.0.0.7,0.0.0.8\n",
        Err((1, 18, 4, 4)),
        b"net,a,0.0.0.1,0.0.0.2\n",
    ),
    (
        b"net,a,0.0.0.1,0.0.0.2\nnet,b,0.0.0.2,0.0.0.3\nnet,c,0.0.0.7,0.0.0.8\n",
        Err((3, 11, 2, 0)),
        b"net,a,0.0.0.1,0.0.0.2\n",
    ),
    (
        b"net,a,0.0.0.1,0.0.0.2\n\n\nnet,b,0.0.0.9,0.0.0.8\nx\n",
        Err((2, 10, 4, 0)),
        b"net,a,0.0.0.1,0.0.0.2\n",
    ),
];

#[test]
fn rows_are_declared_up_to_the_line_of_the_fault(rt: HostRuntime) {
    for (text, wanted, written) in TEXTS {
        let mut rows = [unwritten(); 8];
        let mut plan = Plan::open(&mut rows);
        assert_eq!(rt; loaded(&mut plan, text), wanted);
        assert!(rt; writes(&plan, written));
    }
}

// A text of this many bytes: a long comment, and then a row of 22 bytes.
fn long_text(heap: Global, length: usize) -> Result<Vec<u8>, AllocError> {
    let mut text = vec![in heap; b'#'; length.saturating_sub(23)]?;
    text.extend_from_slice(b"\nnet,a,0.0.0.1,0.0.0.2\n")?;
    Ok(text)
}

#[test]
fn a_text_may_have_16384_bytes_and_no_more(rt: HostRuntime) -> Result<(), Fail> {
    let mut rows = [unwritten(); 8];
    let mut plan = Plan::open(&mut rows);
    let before = held(rt.alloc(), &plan)?;
    let over = long_text(rt.alloc(), 16385)?;
    assert_eq!(rt; over.len(), 16385);
    assert_eq!(rt; loaded(&mut plan, &over), Err((3, 22, 0, 0)));
    assert_eq!(rt; held(rt.alloc(), &plan)?, before);
    let longest = long_text(rt.alloc(), 16384)?;
    assert_eq!(rt; longest.len(), 16384);
    assert_eq!(rt; loaded(&mut plan, &longest), FINE);
    assert!(rt; writes(&plan, b"net,a,0.0.0.1,0.0.0.2\n"));
    Ok(())
}
