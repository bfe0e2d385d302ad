//! Laws of the elements of a network that runs a checked graph.
#![tactic(auto)]

mod laws;
mod literals;

pub use laws::{parts_law, puts_law};
pub use literals::parts_on_literals;
