//! Tuples as lines of text: each is one tuple literal, such as `{s="a",xs=[1,2]}`.
#![tactic(auto)]

mod bytes;
mod laws;
mod numbers;
mod reading;
mod texts;
mod writing;

pub use laws::{fitting_law, one_line_law, one_tuple_law, written_law};
pub use reading::{TxtRow, read_row};
pub use writing::{add_row, write_row};
