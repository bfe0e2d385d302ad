//! The operator Custom, whose state is its variables.
#![tactic(auto)]

mod custom;

pub use custom::Custom;
