//! What an element tells when it is done.
use operator_chains::How;
use spl_value::{Inputs, Items};

/// An end, and how it stands: an operator without output ports, under port 0, or an output port whose stream nobody reads.
#[derive(Clone, Copy)]
pub struct End {
    pub op: u32,
    pub port: u32,
    pub how: How,
}

/// The ends of an element, in the order of their ports.
pub type Ends = Items<End>;

/// How many items were put, by output.
pub type Numbers = Items<u64>;

/// What an element tells when it is done.
#[derive(Drop)]
pub struct Ending {
    /// The inputs of the events of a chain that reads several connections, in their order. Empty for every other element.
    pub arrivals: Inputs,
    pub ends: Ends,
    /// How many items were put on each output. Each count stands still at its greatest number.
    pub sent: Numbers,
    /// How many tuples were handed out for its sink, likewise.
    pub tuples: u64,
    /// Whether it was cut.
    pub cut: bool,
}
