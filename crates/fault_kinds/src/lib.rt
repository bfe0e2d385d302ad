//! Of which kinds the faults of evaluation, and so of operators, are.
#![tactic(auto)]

mod evaluation;
mod operators;

pub use evaluation::{bodies_kinds_law, value_kinds_law};
pub use operators::operator_kinds_law;
