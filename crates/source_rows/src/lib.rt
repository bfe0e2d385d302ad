//! The rows of the sources of a checked graph, read from a shelf.
#![tactic(auto)]

mod file;
mod sources;

pub use sources::{Sources, read_sources};
