//! Which values belong to a type, decided while a program runs.
#![tactic(auto)]

mod fits;
mod rising;

pub use fits::{item_fits, tuple_fits};
