//! From operator to operator.
ghost use Rattle.std.specs.Prelude.{◌≡◌, List, IfOk};
ghost use Rattle.language_model.specs.StreamTypes.{Attributes};
ghost use Rattle.stream_model.specs.Stages.{Stage, on_port};
ghost use Rattle.stream_model.specs.Stream.{TuplesFit};
ghost use Rattle.stream_model.specs.Chains.{passed, stages_passed};
ghost use Rattle.operator_chains.specs.Standing.{AtStages, Joined};

use crate::slot::{Slot, pass};
use language_model::Outs;
use spl_value::NoMemory;
use std::alloc::Global;
use stream_model::React;

/// Passes what an operator gave through the operators behind it, one after another, and gives what the last
/// of them gives.
#[inline(always)]
pub(crate) fn along<R: React>(
    alloc: Global,
    slots: &mut [Slot<R>],
    caused: Outs,
) -> Result<Outs, NoMemory>
    requires may { (types : Attributes) × (ss : List Stage) × AtStages R.spec R.stands slots.old ss × Joined types ss × TuplesFit types (on_port 0 caused) }
    ensures gives { IfOk result (λ outs. (types : Attributes) (ss : List Stage) → AtStages R.spec R.stands slots.old ss → Joined types ss → TuplesFit types (on_port 0 caused)
        → (outs ≡ passed ss caused) × AtStages R.spec R.stands slots.new (stages_passed ss caused)) }
{
    let mut now = caused;
    for slot in slots.iter_mut() {
        now = pass(alloc, slot, now)?;
    }
    Ok(now)
}
