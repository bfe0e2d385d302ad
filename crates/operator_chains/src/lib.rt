//! Operators one behind the other: what each gives goes to the next one as it is.
#![tactic(auto)]

mod along;
mod along_places;
mod chain;
mod enter;
mod given;
mod how;
mod places;
mod slot;

pub use chain::Chain;
pub use given::Given;
pub use how::{How, how_of};
pub use slot::{Slot, pass};
