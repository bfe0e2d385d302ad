//! The operators of a checked graph, each of its kind: what runs them sees them as one. And the run of such a
//! graph by them, from the rows of its sources.
#![tactic(auto)]

mod kind;
mod operator;
mod operators;
mod run;
mod sink;

pub use operator::Operator;
pub use run::run_graph;
