//! What graphs of units are: where operators stand in the text, how they are named and what they take.
#![tactic(auto)]

mod laws;

pub use laws::{checked_law, found_law, inputs_law, inputs_on_literals, order_law, sites_law};
