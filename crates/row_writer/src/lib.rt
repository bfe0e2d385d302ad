//! Tuples as the rows of a sink's file.
#![tactic(auto)]

mod row;
mod writer;

/// Why a row was poured in part, or not at all.
pub use feed_pour::PourAnswer as PutAnswer;
pub use row::add_row;
pub use writer::RowWriter;
