//! The numbers of the streams of an expansion, and the parts of a graph with them.
#![tactic(auto)]

mod bodies;
mod numbering;
mod operators;
mod sites;
mod standing;

pub use numbering::{Numbered, number_streams};
