//! The operator FileSink, as far as it is one among the others.
mod calls;

use port_reacts::CheckedOperator;
use std::alloc::Global;

/// A FileSink: it gives its tuples to its writer, which stands as port 0.
#[derive(Drop)]
pub(crate) struct Sink<'c> {
    pub(crate) alloc: Global,
    pub(crate) at: CheckedOperator<'c>,
}
