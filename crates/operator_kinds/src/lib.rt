//! The kinds of operator, by their numbers and by their names.
#![tactic(auto)]

mod kinds;

pub use kinds::{kind_named, rules_of};
