// A short list in memory of its own: up to N values, with no allocation.
#![tactic(auto)]

mod few;
mod places;
#[cfg(test)]
mod tests;
mod values;

pub use few::Few;
