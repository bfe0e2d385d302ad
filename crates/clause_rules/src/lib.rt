//! The rules of types and clauses: from the graph of a program to a checked one, or to the first refusal.
#![tactic(auto)]

mod checking;
mod logic;
mod operators;
mod parts;
mod ports;

pub use checking::{CheckAnswer, check};
