//! One operator takes a tuple where it stands.
ghost use Rattle.std.specs.Prelude.{◌≡◌, ◌<◌, ◌+◌, ◌∷◌, [], IfOk, length};
ghost use Rattle.spl_value.specs.declared.item.Item.TheVariants as I;
ghost use Rattle.stream_model.specs.Chains.{onward};
ghost use Rattle.stream_model.specs.Replies.{AllFit};
ghost use Rattle.stream_model.specs.Stages.{Stage, gives_all, stage_after};
ghost use Rattle.stream_model.specs.Stream.{came};
ghost use Rattle.operator_chains.specs.Places.{IsBelow, given_as, given_by, tuple_at};
ghost use Rattle.operator_chains.specs.Standing.{AtStage, Enters};

use crate::enter::enter_tuple;
use crate::given::Given;
use crate::slot::{Slot, pass};
use language_model::Outs;
use spl_value::{NoMemory, Values};
use std::alloc::Global;
use std::mem::replace;
use stream_model::{React, Went};

/// Lends the operator two places of a list: the one of the tuple that it takes, and its own.
#[inline(always)]
fn enter_between<R: React>(
    slot: &mut Slot<R>,
    input: u32,
    places: &mut [Values],
    at: usize,
    own: usize,
    outs: &mut Outs,
) -> Result<Went, NoMemory>
    requires may { (s : Stage) × AtStage R.spec R.stands slot.old s × Enters s (came input (I.Tuple (tuple_at places.old at)) ∷ []) }
    requires before { at < own }
    requires own { own < length places.old }
    ensures gives { IfOk result (λ went. (s : Stage) → AtStage R.spec R.stands slot.old s → Enters s (came input (I.Tuple (tuple_at places.old at)) ∷ [])
        → (given_as went (tuple_at places.new at) (tuple_at places.new own) outs.new ≡ gives_all s (came input (I.Tuple (tuple_at places.old at)) ∷ []))
        × AtStage R.spec R.stands slot.new (stage_after s (came input (I.Tuple (tuple_at places.old at)) ∷ []))) }
    ensures fits { IfOk result (λ _. (s : Stage) → AtStage R.spec R.stands slot.old s → Enters s (came input (I.Tuple (tuple_at places.old at)) ∷ [])
        → AllFit (R.spec slot.old.operator) (gives_all s (came input (I.Tuple (tuple_at places.old at)) ∷ []))) }
    ensures places { length places.new ≡ length places.old }
{
    let (front, back) = places.split_at_mut(own);
    enter_tuple(slot, input, &mut front[at], &mut back[0], outs)
}

/// Lets the operator take, on an input, the tuple at a place. It may make another one at its own place, which stands
/// behind that. One that has ended drops it.
#[inline(always)]
pub(crate) fn enter_at<R: React>(
    slot: &mut Slot<R>,
    input: u32,
    places: &mut [Values],
    at: usize,
    own: usize,
    outs: &mut Outs,
) -> Result<Given, NoMemory>
    requires may { (s : Stage) × AtStage R.spec R.stands slot.old s × Enters s (came input (I.Tuple (tuple_at places.old at)) ∷ []) }
    requires before { at < own }
    requires own { own < length places.old }
    ensures gives { IfOk result (λ given. (s : Stage) → AtStage R.spec R.stands slot.old s → Enters s (came input (I.Tuple (tuple_at places.old at)) ∷ [])
        → (given_by given places.new outs.new ≡ gives_all s (came input (I.Tuple (tuple_at places.old at)) ∷ []))
        × AtStage R.spec R.stands slot.new (stage_after s (came input (I.Tuple (tuple_at places.old at)) ∷ []))) }
    ensures fits { IfOk result (λ _. (s : Stage) → AtStage R.spec R.stands slot.old s → Enters s (came input (I.Tuple (tuple_at places.old at)) ∷ [])
        → AllFit (R.spec slot.old.operator) (gives_all s (came input (I.Tuple (tuple_at places.old at)) ∷ []))) }
    ensures places { length places.new ≡ length places.old }
    ensures below { IfOk result (λ given. IsBelow (own + 1) given) }
{
    match enter_between(slot, input, places, at, own, outs)? {
        Went::Kept => Ok(Given::Tuple(at)),
        Went::Made => Ok(Given::Tuple(own)),
        Went::Gone => Ok(Given::Nothing),
        Went::Gave | Went::Ended(_) => Ok(Given::Outs),
        Went::Memory => Err(NoMemory),
    }
}

/// Passes what stands among the outputs.
#[cold]
#[inline(never)]
fn pass_outs<R: React>(alloc: Global, slot: &mut Slot<R>, outs: &mut Outs) -> Result<(), NoMemory>
    requires may { (s : Stage) × AtStage R.spec R.stands slot.old s × Enters s (onward outs.old) }
    ensures gives { IfOk result (λ _. (s : Stage) → AtStage R.spec R.stands slot.old s → Enters s (onward outs.old)
        → (outs.new ≡ gives_all s (onward outs.old)) × AtStage R.spec R.stands slot.new (stage_after s (onward outs.old))) }
    ensures fits { IfOk result (λ _. (s : Stage) → AtStage R.spec R.stands slot.old s → Enters s (onward outs.old)
        → AllFit (R.spec slot.old.operator) (gives_all s (onward outs.old))) }
{
    let caused = replace(outs, Outs::new(alloc));
    *outs = pass(alloc, slot, caused)?;
    Ok(())
}

/// Passes what the operator before it gave: the tuple at a place before its own, or what stands among the outputs.
#[inline(always)]
pub(crate) fn pass_at<R: React>(
    alloc: Global,
    slot: &mut Slot<R>,
    given: Given,
    places: &mut [Values],
    own: usize,
    outs: &mut Outs,
) -> Result<Given, NoMemory>
    requires may { (s : Stage) × AtStage R.spec R.stands slot.old s × Enters s (onward (given_by given places.old outs.old)) }
    requires before { IsBelow own given }
    requires own { own < length places.old }
    ensures gives { IfOk result (λ now. (s : Stage) → AtStage R.spec R.stands slot.old s → Enters s (onward (given_by given places.old outs.old))
        → (given_by now places.new outs.new ≡ gives_all s (onward (given_by given places.old outs.old)))
        × AtStage R.spec R.stands slot.new (stage_after s (onward (given_by given places.old outs.old)))) }
    ensures fits { IfOk result (λ _. (s : Stage) → AtStage R.spec R.stands slot.old s → Enters s (onward (given_by given places.old outs.old))
        → AllFit (R.spec slot.old.operator) (gives_all s (onward (given_by given places.old outs.old)))) }
    ensures places { length places.new ≡ length places.old }
    ensures below { IfOk result (λ now. IsBelow (own + 1) now) }
{
    match given {
        Given::Tuple(at) => enter_at(slot, 0, places, at, own, outs),
        Given::Nothing => Ok(Given::Nothing),
        Given::Outs => {
            pass_outs(alloc, slot, outs)?;
            Ok(Given::Outs)
        }
    }
}
