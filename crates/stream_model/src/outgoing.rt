use spl_value::Packet;

/// A packet for one of an element's outputs.
#[derive(Drop)]
pub struct Outgoing {
    /// The output's number.
    pub output: u32,
    pub packet: Packet,
}
