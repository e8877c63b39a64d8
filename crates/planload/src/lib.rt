// Plan texts read: a row into a declaration, and a text into a plan.
#![tactic(auto)]

mod load;
mod row;

pub use load::load_plan;
