// The address plan: networks with names, declared range by range over one line of addresses.
#![tactic(auto)]

mod declare;
mod fit;
mod look;
mod open;
mod plan;

pub use open::check_rows;
pub use plan::Plan;
