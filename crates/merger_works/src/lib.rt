//! What a merger does inside an element of a network: with each packet that it takes, it sends all that is merged then.
#![tactic(auto)]

mod laws;
mod merge;
mod run;

pub use laws::{begin_law, wants_law};
pub use merge::Merge;
pub use run::run_merger;
