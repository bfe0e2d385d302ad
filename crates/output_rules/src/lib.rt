//! The clauses of operators.
#![tactic(auto)]

mod outputs;

pub use outputs::{groups_of, places_of, tuple_of};
