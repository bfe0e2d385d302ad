//! The weights of tokens.
#![tactic(auto)]

mod weight;

pub use weight::too_deep;
