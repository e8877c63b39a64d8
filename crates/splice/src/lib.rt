// A line with a new run: what a label laid over a part of a run makes of the runs around it.
#![tactic(auto)]

mod change;
mod rows;
mod sides;

pub use change::Change;
pub use sides::change_of;
