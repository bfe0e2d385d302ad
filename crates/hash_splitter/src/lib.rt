//! The splitter of a region: which channel each item goes to, under which number, and when a pulse is due.
#![tactic(auto)]

mod laws;
mod splitter;

pub use laws::premises_law;
pub use spl_value::Routing;
pub use splitter::Splitter;
