//! The programs and the files of rows of tests, and the shelves in memory on which they stand.
#![tactic(auto)]

mod examples;
mod generated;
mod programs;
mod shelf;

pub use shelf::{File, files_of, out_of, shelf_of};
