//! An element with its ends of the links, its source and its sink, which takes turns.
#![tactic(auto)]

mod ends;
mod machine;
mod made;
mod next;
mod node;
mod note;
mod outside;
mod steps;
mod turns;

pub use ends::{Inlet, Outlet};
pub use machine::Machine;
pub use next::Next;
pub use node::{Apart, Node};
pub use note::Note;
pub use outside::{Sink, Source};
