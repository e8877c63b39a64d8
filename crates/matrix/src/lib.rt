// What the matrix programs print: the plan as it was understood, or the one fault line.
#![tactic(auto)]

mod answer;
mod fault_line;
mod run;

pub use answer::{Answer, plan_answer};
pub use fault_line::{TextKind, write_fault};
pub use run::{Failure, print_plan};
