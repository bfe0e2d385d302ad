ghost use Rattle.std.specs.Prelude.{◌≡◌, ◌<◌, length, slice_get, IfOk};
ghost use Rattle.stream_model.specs.declared.plan.StateKind.TheVariants as K;
ghost use Rattle.stream_model.specs.CheckedMeaning.{graph_of};
ghost use Rattle.stream_model.specs.Meaning.{Graph};
ghost use Rattle.stream_model.specs.Operators.{Operator};
ghost use Rattle.stream_model.specs.StateKinds.{state_by, state_of};
ghost use Rattle.stream_model.specs.parts.StateKinds.{has_mutable};
ghost use Rattle.stream_model.specs.Windows.{flushes_at_markers};

use language_model::{Checked, CheckedClauses, Handlers, WindowRule};
use spl_value::{Items, NoMemory, Places};
use std::alloc::Global;
use stream_model::StateKind;

/// What kind of state the operator with this number keeps from event to event.
/// Memory is taken for the places of a key.
pub fn state_of(alloc: Global, checked: &Checked, op: u32) -> Result<StateKind, NoMemory>
    requires number { op < length checked.now.parts }
    ensures kind { (g : Graph) (o : Operator) → graph_of checked.now ≡ g → slice_get g.ops op ≡ Some o
        → IfOk result (λ kind. kind ≡ state_of o) }
{
    match checked.parts.get(op as usize) {
        Some(part) => state_by(alloc, part),
        None => unreachable!(),
    }
}

/// The same by these clauses.
fn state_by(alloc: Global, part: &CheckedClauses) -> Result<StateKind, NoMemory>
    ensures { IfOk result (λ kind. kind ≡ state_by part.now) }
{
    match part {
        CheckedClauses::FileSource { .. }
        | CheckedClauses::FileSink { .. }
        | CheckedClauses::Join { .. } => Ok(StateKind::Whole),
        CheckedClauses::Filter { .. }
        | CheckedClauses::Functor { .. }
        | CheckedClauses::Punctor { .. }
        | CheckedClauses::Split { .. }
        | CheckedClauses::Union { .. } => Ok(StateKind::Stateless),
        CheckedClauses::Custom { handlers } => {
            if has_mutable(handlers) {
                Ok(StateKind::Whole)
            } else {
                Ok(StateKind::Stateless)
            }
        }
        CheckedClauses::Aggregate {
            window,
            partition,
            ..
        } => {
            if window.partitioned && !flushes_at_markers(window.rule) {
                keyed(alloc, partition)
            } else {
                Ok(StateKind::Whole)
            }
        }
    }
}

fn keyed(alloc: Global, places: &Places) -> Result<StateKind, NoMemory>
    ensures { IfOk result (λ kind. kind ≡ K.Keyed places.now) }
{
    Ok(StateKind::Keyed(Items::from_slice(alloc, places.as_slice())?))
}

fn has_mutable(handlers: &Handlers) -> bool
    ensures { result ≡ has_mutable handlers.now }
{
    for x in handlers.state.as_slice() {
        if x.variable.mutable {
            return true;
        }
    }
    false
}

fn flushes_at_markers(rule: WindowRule) -> bool
    ensures { result ≡ flushes_at_markers rule }
{
    matches!(rule, WindowRule::TumblingPunct)
}
