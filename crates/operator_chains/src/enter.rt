//! One operator takes a tuple that is lent to it.
ghost use Rattle.std.specs.Prelude.{◌≡◌, ◌∷◌, [], IfOk};
ghost use Rattle.spl_value.specs.declared.item.Item.TheVariants as I;
ghost use Rattle.stream_model.specs.Replies.{AllFit};
ghost use Rattle.stream_model.specs.Stages.{Stage, gives_all, stage_after};
ghost use Rattle.stream_model.specs.Stream.{came as came_on};
ghost use Rattle.operator_chains.specs.Places.{given_as};
ghost use Rattle.operator_chains.specs.Standing.{AtStage, Enters};

use crate::how::How;
use crate::slot::{Slot, end_by};
use language_model::Outs;
use spl_value::{NoMemory, Values};
use stream_model::{React, Went};

/// Lets the operator take a tuple on an input. One that has ended drops it.
#[inline(always)]
fn take_tuple<R: React>(
    slot: &mut Slot<R>,
    input: u32,
    came: &mut Values,
    made: &mut Values,
    outs: &mut Outs,
) -> Result<Went, NoMemory>
    requires may { (s : Stage) × AtStage R.spec R.stands slot.old s × Enters s (came_on input (I.Tuple came.old) ∷ []) }
    ensures gives { IfOk result (λ went. (s : Stage) → AtStage R.spec R.stands slot.old s → Enters s (came_on input (I.Tuple came.old) ∷ [])
        → (given_as went came.new made.new outs.new ≡ gives_all s (came_on input (I.Tuple came.old) ∷ []))
        × AtStage R.spec R.stands slot.new (stage_after s (came_on input (I.Tuple came.old) ∷ []))) }
    ensures fits { IfOk result (λ went. AllFit (R.spec slot.old.operator) (given_as went came.new made.new outs.new)) }
{
    let How::Live = slot.how else {
        return Ok(Went::Gone);
    };
    match slot.operator.on_tuple(input, came, made, outs) {
        Went::Memory => Err(NoMemory),
        Went::Ended(fault) => {
            slot.how = end_by(fault);
            Ok(Went::Ended(fault))
        }
        went => Ok(went),
    }
}

/// The same, of what an operator gives for a tuple that may come, whatever stands where.
#[inline(always)]
pub(crate) fn enter_tuple<R: React>(
    slot: &mut Slot<R>,
    input: u32,
    came: &mut Values,
    made: &mut Values,
    outs: &mut Outs,
) -> Result<Went, NoMemory>
    requires may { (s : Stage) × AtStage R.spec R.stands slot.old s × Enters s (came_on input (I.Tuple came.old) ∷ []) }
    ensures gives { IfOk result (λ went. (s : Stage) → AtStage R.spec R.stands slot.old s → Enters s (came_on input (I.Tuple came.old) ∷ [])
        → (given_as went came.new made.new outs.new ≡ gives_all s (came_on input (I.Tuple came.old) ∷ []))
        × AtStage R.spec R.stands slot.new (stage_after s (came_on input (I.Tuple came.old) ∷ []))) }
    ensures fits { IfOk result (λ _. (s : Stage) → AtStage R.spec R.stands slot.old s → Enters s (came_on input (I.Tuple came.old) ∷ [])
        → AllFit (R.spec slot.old.operator) (gives_all s (came_on input (I.Tuple came.old) ∷ []))) }
{
    take_tuple(slot, input, came, made, outs)
}
