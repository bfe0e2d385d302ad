//! A node: an element with its ends of the links, its source and its sink.

use crate::ends::{Inlet, Outlet};
use crate::note::Note;
use spl_value::Values;
use std::snapshot::Snapshot;

/// An element with its ends of the links, its source and its sink.
#[derive(Drop)]
pub struct Node<E, S, K> {
    pub(crate) number: u32,
    pub(crate) element: E,
    pub(crate) ins: Vec<Inlet>,
    pub(crate) outs: Vec<Outlet>,
    pub(crate) source: Option<S>,
    pub(crate) sink: Option<K>,
    /// The place of the tuple that was poured last.
    pub(crate) tuple: Values,
    /// The input at which the next round begins.
    pub(crate) at: usize,
    /// How many packets it has put.
    pub(crate) puts: u64,
    pub(crate) note: Note,
    /// Its source and its sink as they were at first.
    pub(crate) first: Snapshot<Option<S>>,
    pub(crate) clean: Snapshot<Option<K>>,
}

/// What is left of a node once it is taken apart.
#[derive(Drop)]
pub struct Apart<E, S, K> {
    pub number: u32,
    pub element: E,
    pub ins: Vec<Inlet>,
    pub outs: Vec<Outlet>,
    pub source: Option<S>,
    pub sink: Option<K>,
    pub note: Note,
}
