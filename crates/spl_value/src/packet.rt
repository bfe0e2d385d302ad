use crate::Item;

/// What travels on a link.
#[derive(Drop)]
pub enum Packet {
    /// An item under its number in the region's input, or under that of the item that caused it.
    /// Outside regions the number is 0.
    Item { number: u64, item: Item },
    /// The number of items that the splitter sent before this packet.
    Pulse(u64),
    /// No item follows: the stream is whole.
    Close,
    /// No item follows: the sender was cut, and the stream may not be whole.
    Cut,
}
