// The plain table of rules: up to 128 of them, in order, and what may be done with one of them.
#![tactic(auto)]

mod edits;
mod table;

pub use table::{MOST_RULES, RuleTable};
