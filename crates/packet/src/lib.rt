// Packets: two addresses, a protocol and a port, and how they are read from the bytes of a head.
#![tactic(auto)]

mod packet;
mod reading;
#[cfg(test)]
mod tests;

pub use packet::Packet;
pub use reading::read_packet;
