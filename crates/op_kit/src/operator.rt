//! An operator, with the connections of its ports.
mod calls;

use crate::kind::Kind;
use connection_counts::Connections;
use std::alloc::Global;

/// An operator of a checked graph. It answers the events of its connections: a final marker on one ends its
/// port where none of the port's others is open, and the operator ends where no port is left.
pub struct Operator<'c> {
    pub(crate) alloc: Global,
    pub(crate) kind: Kind<'c>,
    pub(crate) connections: Connections,
    /// How many output ports it has.
    pub(crate) outputs: usize,
}

impl<'c> Drop for Operator<'c> {
    fn drop(self) {
        let Operator {
            alloc: _,
            kind: _,
            connections: _,
            outputs: _,
        } = self;
    }
}
