// A pair of networks.

// The networks of a packet's source and destination, by number, 0 being elsewhere.
#[derive(Clone, Copy, PartialEq, Eq, Debug)]
pub struct Pair {
    pub from: u8,
    pub to: u8,
}
