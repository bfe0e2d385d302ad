//! The composites of a unit by name, and what the inputs of the bodies take that an expansion opens.
#![tactic(auto)]

mod heads;
mod inputs;
mod made;
mod main_composite;
mod sources;
mod tables;

pub use heads::fits_head;
pub use inputs::{connections, inputs_of};
pub use made::{Body, Input, Taken};
pub use main_composite::main_of;
pub use sources::sources_by_port;
pub use tables::{Composites, Scope};
