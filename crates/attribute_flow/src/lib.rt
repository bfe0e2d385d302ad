//! Which attribute of its input an output attribute of an operator is a copy of.
#![tactic(auto)]

mod agreement;
mod codes;
mod flow;
mod laws;
mod submits;

pub use flow::{source_of, trace};
pub use laws::copies_law;
