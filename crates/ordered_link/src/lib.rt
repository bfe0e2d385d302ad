//! A bounded link from one sender to one taker, which keeps the order of the packets.
#![tactic(auto)]

mod ends;
mod rule;

pub use ends::calls::{link, settle};
pub use ends::{Link, Put, SendPass, Settled, SettledLinks, TakePass};
