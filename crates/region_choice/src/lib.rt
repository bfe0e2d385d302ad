//! Which operators of a graph run in regions.
#![tactic(auto)]

mod choice;
mod connections;
mod growing;
mod keys;
mod laws;
mod operators;

pub use choice::choose;
pub use laws::plan_law;
