//! The calls that the language has built in, over values.
#![tactic(auto)]

mod collections;
mod extremes;
mod integers;
mod laws;
mod texts;

pub use collections::{append_m, clear_m, has, remove_m, size};
pub use extremes::{max, min};
pub use integers::abs;
pub use laws::{calls_law, values_law};
pub use texts::{length, substring};
