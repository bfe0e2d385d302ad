use spl_value::{Ids, Items, Places};

/// What an operator keeps from event to event, as far as parallel regions ask: nothing, a state for each
/// value of some attributes of its input, or more.
#[derive(Drop)]
pub enum StateKind {
    Stateless,
    /// The attributes of its input by their places, in the order of the text.
    Keyed(Places),
    Whole,
}

/// How many items each event of an operator with one connection and one output port causes.
#[derive(Clone, Copy)]
pub enum Gives {
    One,
    AtMostOne,
    Many,
}

/// How the outputs of the replicas of a region are put in order.
#[derive(Clone, Copy)]
pub enum Merge {
    /// Item by item, channel after channel.
    Turns,
    /// By the numbers of the items that caused them.
    Numbers,
    /// By these numbers, where pulses of the splitter say below which number no item is still to come.
    Pulses,
}

/// A chain of operators that runs in replicas.
pub struct Region {
    /// Their numbers, in the order of the chain.
    pub ops: Ids,
    /// The attributes, of the stream that the region reads, by which tuples go to channels, in the order of the
    /// schema. A region without one sends its items round robin.
    pub key: Places,
    pub merge: Merge,
}

impl Drop for Region {
    fn drop(self) {
        let Region {
            ops: _,
            key: _,
            merge: _,
        } = self;
    }
}

/// The regions of a graph, in topological order.
pub type Plan = Items<Region>;
