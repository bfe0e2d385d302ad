//! What checked operators reply.
ghost use Rattle.std.specs.Prelude.{◌≡◌, ◌<◌, Some, length, slice_get};
ghost use Rattle.value_operations.specs.Answers.{StopsAs};
ghost use Rattle.stream_model.specs.Bodies.{Makes};
ghost use Rattle.stream_model.specs.CheckedMeaning.{graph_of, operator_with};
ghost use Rattle.stream_model.specs.Fitting.{IsFitting};
ghost use Rattle.stream_model.specs.PathLaws.{fault_by};
ghost use Rattle.stream_model.specs.React.{answer};
ghost use Rattle.port_reacts.specs.Bodies.{EndsBy, RepliesTo};
ghost use Rattle.port_reacts.specs.PortReplies.{WhereOut};

use crate::checked_operator::CheckedOperator;
use crate::fit_laws::fits_law;
use crate::replies::on_each_port;
use language_model::Checked;
use spl_tree::Functions;
use spl_value::{Fault, FaultKind, Item};
use std::alloc::Global;
use stream_model::Reply;
use value_operations::Stop;

impl<'c> CheckedOperator<'c> {
    /// The operator of the graph with this number. There is one.
    pub fn new(checked: &'c Checked, number: u32) -> CheckedOperator<'c>
        requires { number < length checked.now.graph.ops }
        ensures checked { result.checked.now ≡ checked.now }
        ensures number { result.number ≡ number }
        ensures op { slice_get checked.now.graph.ops number ≡ Some result.op.now }
        ensures part { slice_get checked.now.parts number ≡ Some result.part.now }
        ensures in_graph { slice_get (graph_of checked.now).ops number
            ≡ Some (operator_with checked.now number result.op.now result.part.now) }
        ensures fitting { IsFitting (operator_with checked.now number result.op.now result.part.now) }
    {
        fits_law();
        let at = number as usize;
        let Some(op) = checked.graph.ops.get(at) else {
            unreachable!()
        };
        let Some(part) = checked.parts.get(at) else {
            unreachable!()
        };
        CheckedOperator {
            checked,
            number,
            op,
            part,
        }
    }

    /// The functions that its clauses may call.
    pub fn functions(&self) -> &'c Functions
        ensures { result.now ≡ self.now.checked.now.functions }
    {
        let checked = self.checked;
        &checked.functions
    }

    /// The end of the operator by a fault, which goes to each of its output ports.
    pub fn ended_by(&self, alloc: Global, fault: Fault) -> Reply
        ensures { EndsBy (length self.now.op.now.outs) fault result }
    {
        match on_each_port(alloc, self.op.outs.len(), &Item::Bad(fault)) {
            Ok(outs) => Reply::Ended(outs, Some(fault)),
            Err(_) => Reply::Memory,
        }
    }

    /// The end of the operator by a fault of its own.
    pub fn faulted(&self, alloc: Global, kind: FaultKind) -> Reply
        ensures { EndsBy (length self.now.op.now.outs) (fault_by self.now.number kind) result }
    {
        let fault = Fault {
            op: self.number,
            kind,
            line: 0,
        };
        self.ended_by(alloc, fault)
    }

    /// The reply where an evaluation ends early, whatever its outcome.
    pub fn stopped(&self, alloc: Global, stop: Stop) -> Reply
        ensures replies { (outcome : Makes) → StopsAs outcome stop
            → RepliesTo self.now.number (length self.now.op.now.outs) (answer outcome) result }
        ensures ends { WhereOut result ⊥ }
    {
        match stop {
            Stop::Fault(kind) => self.faulted(alloc, kind),
            Stop::Memory => Reply::Memory,
        }
    }
}
