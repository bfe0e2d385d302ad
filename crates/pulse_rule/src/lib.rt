//! The merger of regions whose operators give any number of items for each: by numbers and pulses.
#![tactic(auto)]

mod merger;

pub use merger::PulseMerger;
