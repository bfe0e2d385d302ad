//! What operators, casts, comparisons with markers and built-in calls are on operands of a type.
#![tactic(auto)]

mod answer;
mod calls;
mod forms;
mod kinds;
mod operators;

pub use answer::not_mutable;
pub use calls::{
    Asked, Gives, OnFirst, argument_count, argument_row, behind_first, call_named, change_asked,
    first_wanted, given, may_change,
};
pub use forms::{asks, marker, marker_test, truth};
pub use kinds::{as_wanted, required};
pub use operators::{binary, branch_wanted, operation_of, operator_on, prefixed, right_wanted};
