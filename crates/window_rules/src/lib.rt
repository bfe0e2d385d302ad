//! The windows of operators.
#![tactic(auto)]

mod numbers;
mod windows;

pub use windows::{is_partitioned, windows_of};
