//! An element and what it holds.
use crate::input::Input;
use crate::output::Output;
use crate::work::Work;
use element_notes::Notes;
use element_outboxes::{Fan, Outbox};
use element_works::Tuples;
use spl_value::{Items, Schema};
use std::alloc::Global;

/// A chain of fused operators, a splitter or a replica, with what it owes for what it has taken and hasn't put.
#[derive(Drop)]
pub struct Element<R> {
    pub(crate) alloc: Global,
    pub(crate) work: Work<R>,
    /// The attributes at each input.
    pub(crate) ins: Items<Schema>,
    pub(crate) inputs: Items<Input>,
    /// Whether it has a source that isn't read to its last item.
    pub(crate) reads: bool,
    pub(crate) fans: Items<Fan>,
    pub(crate) outbox: Outbox,
    pub(crate) outputs: Items<Output>,
    /// Whether `Close` or `Cut` was on its output already when the last packet was put.
    pub(crate) was_ended: bool,
    /// How many items had been put on its output then.
    pub(crate) was_sent: u64,
    pub(crate) tuples: Tuples,
    pub(crate) notes: Notes,
    pub(crate) cut: bool,
}
