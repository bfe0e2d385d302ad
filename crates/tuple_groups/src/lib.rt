//! Groups of tuples, and what collectors make of them.
#![tactic(auto)]

mod collectors;
mod extremes;
mod grouping;
mod keys;
mod rows;
mod sums;

pub use extremes::is_before;
pub use grouping::groups;
pub use keys::key_of;
pub use rows::group_tuple;
pub use sums::integer_of;
