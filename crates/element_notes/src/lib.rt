//! What an element of a network notes for its ending: its record, how its ends stand, and what it has put and poured.
#![tactic(auto)]

mod ending;
mod ends;
mod laws;
mod notes;

pub use ending::{End, Ending, Ends, Numbers};
pub use laws::stream_ends_law;
pub use notes::Notes;
