use spl_value::{Inputs, Items};

/// The input numbers of an operator's events, in their order.
pub struct ArrivalList {
    pub op: u32,
    pub inputs: Inputs,
}

impl Drop for ArrivalList {
    fn drop(self) {
        let ArrivalList { op: _, inputs: _ } = self;
    }
}

pub type ArrivalLists = Items<ArrivalList>;

/// The arrival record of a run: a list for each operator with several connections, in the order of
/// the operators.
pub struct Arrivals {
    pub lists: ArrivalLists,
}

impl Drop for Arrivals {
    fn drop(self) {
        let Arrivals { lists: _ } = self;
    }
}

/// How many items a splitter sent to a channel of a region.
#[derive(Clone, Copy)]
pub struct ChannelCount {
    pub region: u32,
    pub channel: u32,
    pub events: u64,
}

pub type ChannelCounts = Items<ChannelCount>;

/// How many tuples a FileSink wrote.
#[derive(Clone, Copy)]
pub struct SinkCount {
    pub op: u32,
    pub tuples: u64,
}

pub type SinkCounts = Items<SinkCount>;

/// What a run counted: by region and channel, and by sink in the order of the operators.
#[derive(Drop)]
pub struct Counts {
    pub channels: ChannelCounts,
    pub sinks: SinkCounts,
}
