//! The ends of links that a node has.

use ordered_link::{SendPass, TakePass};

/// An input: the number of its link, and the end of it that takes.
#[derive(Drop)]
pub struct Inlet {
    pub link: u32,
    pub pass: TakePass,
}

/// An output: the number of its link, and the end of it that sends.
#[derive(Drop)]
pub struct Outlet {
    pub link: u32,
    pub pass: SendPass,
}
