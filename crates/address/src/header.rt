// The header of a packet.

// What a header says: the packet's addresses and protocol, where the header ends, and whether a later fragment follows it.
#[derive(Clone, Copy)]
pub struct Header<P> {
    pub source: P,
    pub destination: P,
    pub protocol: u8,
    pub end: usize,
    // A flag and no Option round the rest, which the head of a later fragment tells as well.
    pub later: bool,
}
