//! Joins: each tuple of one port with those of the other port's window.
#![tactic(auto)]

mod clauses;
mod evaluation;
mod join;
mod matching;
mod pair;
mod side;

pub use join::Join;
