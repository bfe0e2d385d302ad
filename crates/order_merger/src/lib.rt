//! The mergers of regions whose operators give one item for each: by turns, and by numbers.
#![tactic(auto)]

mod by_numbers;
mod by_turns;

pub use by_numbers::NumberMerger;
pub use by_turns::TurnMerger;
