//! The rows that the program reads and writes.
#![tactic(auto)]

#[cfg(test)]
mod source_rows;
