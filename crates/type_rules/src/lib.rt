//! The types of expressions, of assignments and of calls as statements.
#![tactic(auto)]

mod places;
mod rules;
mod statements;

pub use rules::type_of;
pub use statements::{assignment_of, call_of, compound_of};
