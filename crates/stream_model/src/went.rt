//! What an operator makes of a tuple that stays at its place.

use spl_value::Fault;

/// What an operator gives for a tuple at a place. A tuple that is given on the first output port, alone, stands at a
/// place too, so that it is neither moved nor packed.
#[derive(Clone, Copy)]
pub enum Went {
    /// The tuple at the place on which it came.
    Kept,
    /// The tuple at the place for one that is made.
    Made,
    /// Nothing.
    Gone,
    /// What stands among the outputs.
    Gave,
    /// The same, where the operator ends with this tuple: with this fault, or else with the final marker.
    Ended(Option<Fault>),
    /// There was no memory.
    Memory,
}
