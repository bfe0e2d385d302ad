//! What kind of state an operator keeps.
#![tactic(auto)]

mod laws;
mod state;

pub use laws::state_law;
pub use state::state_of;
