//! The attributes of streams and ports.
#![tactic(auto)]

mod origins;
mod ports;
mod refusals;
mod streams;

pub use ports::port_types;
pub use streams::StreamTable;
