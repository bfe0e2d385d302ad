//! The elements and links of a network as one machine over events.
#![tactic(auto)]

mod event;
mod moving;
mod net;

pub use event::{Event, Stepped};
pub use net::Net;
