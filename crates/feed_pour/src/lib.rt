//! What a program reads from and writes to, as traits: a source of bytes, a sink of bytes, and a
//! shelf of named files. They stand here over the system's files. `Starter` and `Gate` let a caller
//! choose the groups that get a worker, and see each put.
#![tactic(auto)]

mod files;
mod named;
mod outside;
mod starters;
mod stdout;
mod table;
mod tallies;
mod whole;

pub use files::{FileFeed, FilePour, FileShelf};
pub use named::{Fetched, fetch};
pub use outside::{Failed, Feed, Opened, Pour, PourAnswer, Shelf};
pub use starters::{AllStart, Gate, NotThese, OpenGate, Starter};
pub use stdout::StdoutPour;
pub use table::{Entry, find, put};
pub use tallies::{
    Tallies, know, raise_creating, raise_opening, raise_reading, raise_writing, tallies_of,
};
pub use whole::{ReadAll, read_all, write_all};
