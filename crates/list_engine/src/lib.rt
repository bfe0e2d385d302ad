//! The run of a checked graph on one thread, stream by stream.
#![tactic(auto)]

mod arrivals;
mod ends;
mod gather;
mod laws;
mod operator;
mod place;
mod readers;
mod replay;
mod run;
mod run_order;
mod state;

pub use laws::{engine_law, runs_on_literals};
pub use run::{Run, run_lists};
pub use run_order::{Order, RunAnswer};
