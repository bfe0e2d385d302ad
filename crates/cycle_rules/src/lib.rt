//! What calls, invokes or waits for itself, and the topological order of operators.
#![tactic(auto)]

mod calls;
mod order;
mod recursion;

pub use order::{first_outside, topological_order};
pub use recursion::first_recursion;
