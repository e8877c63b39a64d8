// Texts in parts, numbers in decimal digits, and texts that are measured and written into a buffer.
#![tactic(auto)]

mod cuts;
mod field;
mod fields;
mod numbers;
mod parts;
mod room;
mod row;
mod rows;
mod sink;
mod spendable;
#[cfg(test)]
mod tests;
mod writer;

pub use cuts::{Parted, cut};
pub use field::Field;
pub use fields::Fields;
pub use numbers::{put_number, read_number};
pub use room::Room;
pub use row::Row;
pub use rows::Rows;
pub use sink::Sink;
pub use spendable::Spendable;
pub use writer::Writer;
