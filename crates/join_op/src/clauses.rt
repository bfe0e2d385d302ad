//! The clauses of a Join.

use port_reacts::CheckedOperator;
use spl_tree::{Code, Slot};

/// The clauses of a Join, where it stands in the graph.
#[derive(Clone, Copy)]
pub(crate) struct Clauses<'c> {
    pub at: CheckedOperator<'c>,
    pub condition: &'c Option<Code<Slot>>,
    pub output: &'c Code<Slot>,
}
