// Names of networks: which texts are names, and up to 24 of them with their numbers.
#![tactic(auto)]

mod letters;
mod name;
mod table;
#[cfg(test)]
mod tests;

pub use letters::is_well_formed;
pub use name::{Name, Names};
