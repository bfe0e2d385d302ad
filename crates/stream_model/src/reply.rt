use language_model::Outs;
use spl_value::Fault;

/// What an operator answers to an event.
#[derive(Drop)]
pub enum Reply {
    /// The items that the event causes, each on its output port, in their order.
    Out(Outs),
    /// The same, where the operator ends with this event: with this fault, or else with the final marker.
    Ended(Outs, Option<Fault>),
    /// There was no memory.
    Memory,
}
