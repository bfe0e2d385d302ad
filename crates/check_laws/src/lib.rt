//! What the checked clauses of operators are, what a checked graph keeps, and which files its sources and
//! sinks have.
#![tactic(auto)]

mod laws;
mod own_files;

pub use laws::{dollar_meant_law, keeps_law, parts_law};
pub use own_files::{own_files_law, own_files_on_literals};
