// The sheets of all pairs of networks in one table: each pair has a strip of rows for its line of decisions.
#![tactic(auto)]

mod compare;
mod drawing;
mod pairs;
mod row;
mod sheets;
mod strips;
mod walk;

pub use row::SheetRow;
pub use sheets::Sheets;
pub use strips::Strips;
