// Plans as text: what a plan holds, written row by row into a lent buffer.
#![tactic(auto)]

mod rows;
#[cfg(test)]
mod tests;
mod write;

pub use write::write_plan;
