//! The rows of a source's file as its stream, one item at a time, whatever pieces its bytes come in.
#![tactic(auto)]

mod came;
mod columns;
mod find;
mod lines;
mod marked;
mod places;
mod rows;
mod short;
mod unmarked;
mod whole;

pub use came::Came;
pub use rows::Rows;
pub use whole::read_rows;
