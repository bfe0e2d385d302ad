//! What a graph of operators means on one thread.
#![tactic(auto)]

mod group_laws;
mod laws;
mod outgoing;
mod plan;
mod plan_laws;
mod port_laws;
mod react;
mod react_laws;
mod record;
mod record_laws;
mod reply;
mod reply_laws;
mod shape;
mod went;
mod width;
mod window_laws;

pub use group_laws::{groups_law, groups_on_literals};
pub use laws::{
    chain_is_ordered, ends_on_literals, graph_law, graphs_of_operators, history_law, kinds_law,
    order_law, path_law, rows_law, rows_on_literals, text_on_literals,
};
pub use outgoing::Outgoing;
pub use plan::{Gives, Merge, Plan, Region, StateKind};
pub use plan_laws::{clauses_on_literals, plans_on_literals, regions_law};
pub use port_laws::ports_law;
pub use react::React;
pub use react_laws::{
    aggregates_on_literals, customs_on_literals, join_on_literals, one_input_on_literals,
    union_on_literals,
};
pub use record::{
    ArrivalList, ArrivalLists, Arrivals, ChannelCount, ChannelCounts, Counts, SinkCount, SinkCounts,
};
pub use record_laws::{records_law, records_on_literals};
pub use reply::Reply;
pub use reply_laws::{replies_law, replies_on_literals};
pub use shape::{Elements, LinkEnds, Role, Shape, ShapeElement, ShapeLink};
pub use went::Went;
pub use width::width_of;
pub use window_laws::{
    mapped_windows_law, window_contents_law, window_insert_law, window_keys_law,
    window_markers_law, windows_on_literals,
};
