//! The state of a Custom, and its handlers by their ports.
#![tactic(auto)]

mod by_port;
mod plain_codes;
mod refusals;
mod state;
mod state_values;

pub use by_port::by_ports;
pub use state::{state_in, variables_of};
