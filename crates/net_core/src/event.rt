//! Events, and what a step answers.

/// What may happen next: an element reads an item of its source, a packet is popped from a link by the element to which
/// the link leads, or one is pushed on a link by the element from which it leads away.
#[derive(Clone, Copy)]
pub enum Event {
    /// Of the element with this number.
    Read(u32),
    /// From the link with this number.
    Pop(u32),
    /// On the link with this number.
    Push(u32),
}

/// What a step has made.
#[derive(Clone, Copy)]
pub enum Stepped {
    /// The event was taken.
    Done,
    /// The event isn't enabled, and nothing has changed.
    NotEnabled,
    /// The event was taken, and there was no memory for what it takes: its element was cut.
    Memory,
}
