//! What a worker gives back.

use crate::turns::Links;
use std::snapshot::Snapshot;

/// The nodes of a worker, and whether it has driven them.
#[derive(Drop)]
pub struct Answer<N> {
    pub nodes: Vec<N>,
    pub driven: bool,
}

/// A worker's promise: it gives these nodes of a network with these links back.
#[derive(Drop)]
pub struct Back<N> {
    pub links: Snapshot<Links>,
    pub was: Snapshot<Vec<N>>,
}
