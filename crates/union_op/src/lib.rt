//! Unions: their tuples are those of all their ports, with the attributes taken by name.
#![tactic(auto)]

mod operator;
mod picking;

pub use operator::Union;
