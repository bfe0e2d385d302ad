//! How many items each event of an operator causes.
#![tactic(auto)]

mod classes;
mod counts;
mod interval;
mod laws;

pub use classes::gives;
pub use laws::classes_law;
