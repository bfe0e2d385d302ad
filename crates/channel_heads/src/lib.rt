//! What a merger holds of the packets that it has taken: at most one item for each channel, its head.
#![tactic(auto)]

mod heads;
mod laws;

pub use heads::Heads;
pub use laws::{fronts_law, merge_law};
