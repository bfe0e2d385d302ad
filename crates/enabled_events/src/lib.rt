//! Which events of a network of elements are enabled, as marks of places.
#![tactic(auto)]

mod asking;
mod marking;
mod refreshing;

pub use marking::{mark_pop, mark_push, mark_read};
pub use refreshing::refresh;
