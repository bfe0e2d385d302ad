//! The links of a network: which ends each has, and the packets that wait on it.
#![tactic(auto)]

mod ends;
mod link_queues;
mod queue;

pub use link_queues::LinkQueues;
