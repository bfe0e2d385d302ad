//! Operators with one input port that look at each item alone: Filter, Functor, Punctor and Split.
#![tactic(auto)]

mod filter;
mod functor;
mod judging;
mod passing;
mod punctor;
mod split;

pub use filter::Filter;
pub use functor::Functor;
pub use punctor::Punctor;
pub use split::Split;
