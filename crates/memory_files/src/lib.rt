//! Sources and sinks of bytes and shelves of files in memory, with failing calls or without.
#![tactic(auto)]

mod calls;
mod faultless;
mod lists;
mod memory;
mod memory_shelf;

pub use calls::Calls;
pub use faultless::{PlainFeed, PlainPour, PlainShelf};
pub use memory::{MemoryFeed, MemoryPour};
pub use memory_shelf::MemoryShelf;
