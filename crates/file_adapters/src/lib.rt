//! Rows of files: a source's file as its stream, and streams as the rows of several sinks' files, with a text's file after them.
#![tactic(auto)]

mod sinks;
mod text;

pub use row_reader::{Rows, read_rows};
pub use row_writer::{PutAnswer, RowWriter};
pub use sinks::{Sink, Sunk, write_sinks};
pub use text::TextFile;
