// Services: a protocol and a port, as points on one scale, which protocols carry ports, and spans of services.
#![tactic(auto)]

mod protocols;
mod service;
mod span;
mod spans;
#[cfg(test)]
mod tests;

pub use protocols::carries_ports;
pub use service::Service;
pub use span::Span;
