//! Laws on the flat graph of a unit: that it is the only one, and what stands in it.
#![tactic(auto)]

mod laws;

pub use laws::{flat_law, graphs_on_literals};
