//! Groups of nodes, each driven on a thread of its own or by the caller until every node is done.
#![tactic(auto)]

mod answer;
mod deals;
mod groups;
mod room;
mod rounds;
mod turns;
mod workers;

pub use groups::run;
pub use room::{Room, room_for};
pub use rounds::drive;
pub use turns::{Links, Tells, Turn, Turns};
