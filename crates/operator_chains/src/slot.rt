//! One operator of a chain.
ghost use Rattle.std.specs.Prelude.{◌≡◌, ◌∷◌, ◌++◌, [], IfOk};
ghost use Rattle.language_model.specs.declared.outs.Output.{Output};
ghost use Rattle.stream_model.specs.Replies.{AllFit, end_by as end_item};
ghost use Rattle.stream_model.specs.Stages.{Stage, gives_all, stage_after};
ghost use Rattle.stream_model.specs.Stream.{Event, came};
ghost use Rattle.operator_chains.specs.declared.how.How.TheVariants as H;
ghost use Rattle.stream_model.specs.Chains.{onward};
ghost use Rattle.operator_chains.specs.Hows.{how_of};
ghost use Rattle.operator_chains.specs.Standing.{AtStage, Enters};

use crate::how::How;
use language_model::{Output, Outs};
use spl_value::{Fault, Item, Items, NoMemory};
use std::alloc::Global;
use stream_model::{React, Reply};

/// An operator, and how it stands.
#[derive(Drop)]
pub struct Slot<R> {
    pub operator: R,
    pub how: How,
}

impl<R> Slot<R> {
    pub(crate) fn new(operator: R) -> Slot<R>
        ensures operator { result.operator ≡ operator }
        ensures live { result.how ≡ H.Live }
    {
        Slot {
            operator,
            how: How::Live,
        }
    }
}

/// How an operator stands that ended so.
#[inline(always)]
pub(crate) fn end_by(fault: Option<Fault>) -> How
    ensures { result ≡ how_of (end_item fault) }
{
    match fault {
        None => How::Final,
        Some(fault) => How::Bad(fault),
    }
}

/// Lets the operator take an item on an input. One that has ended drops it.
#[inline(always)]
pub(crate) fn enter<R: React>(
    alloc: Global,
    slot: &mut Slot<R>,
    input: u32,
    item: Item,
) -> Result<Outs, NoMemory>
    requires may { (s : Stage) × AtStage R.spec R.stands slot.old s × Enters s (came input item ∷ []) }
    ensures gives { IfOk result (λ outs. (s : Stage) → AtStage R.spec R.stands slot.old s → Enters s (came input item ∷ [])
        → (outs ≡ gives_all s (came input item ∷ [])) × AtStage R.spec R.stands slot.new (stage_after s (came input item ∷ []))) }
    ensures fits { IfOk result (λ outs. AllFit (R.spec slot.old.operator) outs) }
    ensures same { IfOk result (λ _. R.spec slot.new.operator ≡ R.spec slot.old.operator) }
{
    let How::Live = slot.how else {
        return Ok(Outs::new(alloc));
    };
    match slot.operator.on_item(input, item) {
        Reply::Out(outs) => Ok(outs),
        Reply::Ended(outs, fault) => {
            slot.how = end_by(fault);
            Ok(outs)
        }
        Reply::Memory => Err(NoMemory),
    }
}

/// Lets the operator take what the one before it gave. What isn't on its first port is dropped.
#[inline(always)]
fn enter_output<R: React>(
    alloc: Global,
    slot: &mut Slot<R>,
    output: Output,
) -> Result<Outs, NoMemory>
    requires may { (s : Stage) × AtStage R.spec R.stands slot.old s × Enters s (onward (output ∷ [])) }
    ensures gives { IfOk result (λ outs. (s : Stage) → AtStage R.spec R.stands slot.old s → Enters s (onward (output ∷ []))
        → (outs ≡ gives_all s (onward (output ∷ []))) × AtStage R.spec R.stands slot.new (stage_after s (onward (output ∷ [])))) }
    ensures fits { IfOk result (λ outs. AllFit (R.spec slot.old.operator) outs) }
    ensures same { IfOk result (λ _. R.spec slot.new.operator ≡ R.spec slot.old.operator) }
{
    if output.port == 0 {
        enter(alloc, slot, 0, output.item)
    } else {
        Ok(Outs::new(alloc))
    }
}

/// What it gives for more of it, behind what it has given.
#[cold]
#[inline(never)]
fn enter_rest<R: React>(
    alloc: Global,
    slot: &mut Slot<R>,
    given: Outs,
    rest: Items<Output>,
) -> Result<Outs, NoMemory>
    requires may { (s : Stage) × AtStage R.spec R.stands slot.old s × Enters s (onward rest) }
    requires fits { AllFit (R.spec slot.old.operator) given }
    ensures gives { IfOk result (λ outs. (s : Stage) → AtStage R.spec R.stands slot.old s → Enters s (onward rest)
        → (outs ≡ given ++ gives_all s (onward rest)) × AtStage R.spec R.stands slot.new (stage_after s (onward rest))) }
    ensures fits { IfOk result (λ outs. AllFit (R.spec slot.old.operator) outs) }
    ensures same { IfOk result (λ _. R.spec slot.new.operator ≡ R.spec slot.old.operator) }
{
    let mut given = given;
    for output in rest.into_vec() {
        given.append(enter_output(alloc, slot, output)?)?;
    }
    Ok(given)
}

/// Lets the operator take all that the one before it gave. Mostly that is one item, which takes no memory.
#[inline(always)]
pub fn pass<R: React>(alloc: Global, slot: &mut Slot<R>, caused: Outs) -> Result<Outs, NoMemory>
    requires may { (s : Stage) × AtStage R.spec R.stands slot.old s × Enters s (onward caused) }
    ensures gives { IfOk result (λ outs. (s : Stage) → AtStage R.spec R.stands slot.old s → Enters s (onward caused)
        → (outs ≡ gives_all s (onward caused)) × AtStage R.spec R.stands slot.new (stage_after s (onward caused))) }
    ensures fits { IfOk result (λ outs. AllFit (R.spec slot.old.operator) outs) }
    ensures same { IfOk result (λ _. R.spec slot.new.operator ≡ R.spec slot.old.operator) }
{
    let (first, rest) = caused.into_parts();
    let Some(output) = first else {
        return Ok(Outs::new(alloc));
    };
    let given = enter_output(alloc, slot, output)?;
    if rest.is_empty() {
        return Ok(given);
    }
    enter_rest(alloc, slot, given, rest)
}
