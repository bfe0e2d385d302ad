//! How tokens are written, and where bytes are none.
#![tactic(auto)]

mod laws;

pub use laws::{refusals_law, written_law};
