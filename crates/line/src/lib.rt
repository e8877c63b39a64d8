// Lines: every place of a finite scale has a label, and runs of places with one label follow one another.
#![tactic(auto)]

mod compare;
mod drawing;
mod label;
mod labelling;
mod laws;
mod point;
mod run;
mod search;

pub use compare::{earlier, last_before, same_runs};
pub use drawing::{draw, draw_over, fill, needed, redraw};
pub use label::Label;
pub use labelling::Labelling;
pub use laws::line_laws;
pub use point::Point;
pub use run::Run;
pub use search::{line_of, look_up, seek};
