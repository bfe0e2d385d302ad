//! Aggregates: what collectors make of the contents with which a window fires.
#![tactic(auto)]

mod aggregate;
mod arguments;
mod clauses;
mod contents;
mod kept;
mod sums;

pub use aggregate::Aggregate;
