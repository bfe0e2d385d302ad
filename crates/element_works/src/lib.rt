//! What each kind of element makes of what it takes.
#![tactic(auto)]

mod chains;
mod replica;
mod split;
mod tuples;

pub use chains::{run_chain, run_tuple};
pub use replica::run_replica;
pub use split::run_splitter;
pub use tuples::Tuples;
