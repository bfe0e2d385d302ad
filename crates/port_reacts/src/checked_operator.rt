//! Operators of checked graphs.
ghost use Rattle.std.specs.Prelude.{◌≤◌, length};

mod calls;

use language_model::{Checked, CheckedClauses};
use spl_tree::Op;

/// An operator of a checked graph, with its ports and its clauses. It has no more than 16 output ports.
#[derive(Clone, Copy)]
pub struct CheckedOperator<'c> {
    pub checked: &'c Checked,
    /// Its number in the graph.
    pub number: u32,
    pub op: &'c Op,
    pub part: &'c CheckedClauses,
    pub ghost within: { length op.now.outs ≤ 16 },
}
