// The two kinds of addresses: points of a line that have a text, and the heads of the packets between them.
#![tactic(auto)]

mod address;
mod bytes;
mod dotted;
mod header;
mod hex;
mod ipv4;
mod ipv6;
#[cfg(test)]
mod tests;

pub use address::Address;
pub use header::Header;
pub use hex::read_digit;
pub use ipv4::Ipv4;
pub use ipv6::Ipv6;
