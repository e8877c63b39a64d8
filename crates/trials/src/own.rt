// A labelling and a sink of a user's own, with nothing in them but what their traits ask for.
ghost use Rattle.std.specs.Prelude.{nat_le, cond};
ghost use Rattle.std.proofs.Common.{rules};

use address::Ipv4;
use line::{Labelling, Point, Run, draw, draw_over, needed, redraw};
use std::test::Fail;
use text::{Sink, put_number};

// One label up to an address, and another after it.
#[derive(Drop)]
struct Parted {
    last: Ipv4,
}

impl Labelling for Parted {
    type Spot = Ipv4;

    type Tag = u8;

    ghost label = { λ p x. cond (nat_le x p.last.value) 1 2 };

    fn piece(&self, from: &Ipv4) -> (u8, Ipv4) {
        if *from <= self.last {
            return (1, self.last);
        }
        (2, Ipv4::last())
    }
}

#[test]
fn a_labelling_of_ones_own_is_drawn(rt: HostRuntime) -> Result<(), Fail> {
    let parted = Parted { last: Ipv4::new(9) };
    let first = Run {
        low: Ipv4::new(0),
        high: Ipv4::new(9),
        label: 1,
    };
    let second = Run {
        low: Ipv4::new(10),
        high: Ipv4::new(u32::MAX),
        label: 2,
    };
    let unwritten = Run::blank(5);
    let blank = Run::blank(0);
    let mut rows = [unwritten; 3];
    assert_eq!(rt; redraw(&mut rows[..1], &parted, blank), None);
    assert!(rt; rows == [unwritten; 3]);
    assert_eq!(rt; needed(&parted, 3), Some(2));
    needed(&parted, 3).ok_or("too many runs")?;
    assert_eq!(rt; draw(&mut rows, &parted), 2);
    assert!(rt; rows == [first, second, unwritten]);
    draw_over(&mut rows, &parted, blank);
    assert!(rt; rows == [first, second, blank]);
    assert_eq!(rt; redraw(&mut rows, &parted, unwritten), Some(2));
    assert!(rt; rows == [first, second, unwritten]);
    Ok(())
}

// How many bytes it took.
#[derive(Drop)]
struct Tally {
    bytes: usize,
}

impl Sink for Tally {
    ghost has_room = { λ _ _. Unit {0} };

    ghost takes = { λ _ _ _. Unit {0} };

    fn put(&mut self, text: &[u8]) {
        self.bytes = self.bytes.wrapping_add(text.len());
    }

    ghost laws = { Prim.search rules };
}

#[test]
fn a_sink_of_ones_own_takes_texts(rt: HostRuntime) {
    let mut tally = Tally { bytes: 0 };
    put_number(1040, &mut tally);
    tally.put_byte(b'.');
    assert_eq!(rt; tally.bytes, 5);
}
