//! The connections of an operator's ports, of which those that haven't ended are counted.
#![tactic(auto)]

mod connections;

pub use connections::{Closing, Connections};
