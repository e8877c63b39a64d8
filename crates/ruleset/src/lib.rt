// A ruleset: rules in order, and the sheet of each pair of networks, which is always that of the rules.
#![tactic(auto)]

mod check;
mod compare;
mod decide;
mod edits;
mod look;
mod open;
mod ruleset;

pub use open::check_sizes;
pub use ruleset::Ruleset;
