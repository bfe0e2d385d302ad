//! A tuple that goes from operator to operator where it stands.
ghost use Rattle.std.specs.Prelude.{◌≡◌, ◌+◌, ◌∷◌, [], List, IfOk, length};
ghost use Rattle.spl_value.specs.declared.item.Item.TheVariants as I;
ghost use Rattle.language_model.specs.StreamTypes.{Attributes};
ghost use Rattle.stream_model.specs.Chains.{chain_after, chain_gives, passed, stages_passed};
ghost use Rattle.stream_model.specs.Stages.{Stage, gives_all, on_port, stage_after};
ghost use Rattle.stream_model.specs.Stream.{TuplesFit, came};
ghost use Rattle.operator_chains.specs.Places.{IsBelow, given_by, tuple_at};
ghost use Rattle.operator_chains.specs.Standing.{AtStage, AtStages, Joined, MayFeed};

use crate::given::Given;
use crate::places::{enter_at, pass_at};
use crate::slot::Slot;
use language_model::Outs;
use spl_value::{NoMemory, Values};
use std::alloc::Global;
use stream_model::React;

/// Passes what the first operator gave through those behind it, one after another, and gives what the last of them
/// gives. The places of their tuples stand behind that of the first one's, which is the second.
#[inline(always)]
fn along_places<R: React>(
    alloc: Global,
    slots: &mut [Slot<R>],
    given: Given,
    places: &mut [Values],
    outs: &mut Outs,
) -> Result<Given, NoMemory>
    requires may { (types : Attributes) × (ss : List Stage) × AtStages R.spec R.stands slots.old ss × Joined types ss
        × TuplesFit types (on_port 0 (given_by given places.old outs.old)) }
    requires before { IsBelow 2 given }
    requires room { length places.old ≡ length slots.old + 2 }
    ensures gives { IfOk result (λ now. (types : Attributes) (ss : List Stage) → AtStages R.spec R.stands slots.old ss → Joined types ss
        → TuplesFit types (on_port 0 (given_by given places.old outs.old))
        → (given_by now places.new outs.new ≡ passed ss (given_by given places.old outs.old))
        × AtStages R.spec R.stands slots.new (stages_passed ss (given_by given places.old outs.old))) }
    ensures places { length places.new ≡ length places.old }
    ensures below { IfOk result (λ now. IsBelow (length places.old) now) }
{
    let mut now = given;
    let mut own = 2usize;
    for slot in slots.iter_mut() {
        now = pass_at(alloc, slot, now, places, own, outs)?;
        own += 1;
    }
    Ok(now)
}

/// Lets the first operator take, on an input, the tuple at the first place, and passes on what it gives.
#[inline(always)]
pub(crate) fn through_places<R: React>(
    alloc: Global,
    first: &mut Slot<R>,
    others: &mut [Slot<R>],
    input: u32,
    places: &mut [Values],
    outs: &mut Outs,
) -> Result<Given, NoMemory>
    requires may { (s : Stage) × (ss : List Stage) × AtStage R.spec R.stands first.old s × AtStages R.spec R.stands others.old ss
        × MayFeed (s ∷ ss) (came input (I.Tuple (tuple_at places.old 0))) }
    requires room { length places.old ≡ length others.old + 2 }
    ensures gives { IfOk result (λ given. (s : Stage) (ss : List Stage) → AtStage R.spec R.stands first.old s → AtStages R.spec R.stands others.old ss
        → MayFeed (s ∷ ss) (came input (I.Tuple (tuple_at places.old 0)))
        → (given_by given places.new outs.new ≡ chain_gives (s ∷ ss) (came input (I.Tuple (tuple_at places.old 0)) ∷ []))
        × AtStage R.spec R.stands first.new (stage_after s (came input (I.Tuple (tuple_at places.old 0)) ∷ []))
        × AtStages R.spec R.stands others.new (stages_passed ss (gives_all s (came input (I.Tuple (tuple_at places.old 0)) ∷ [])))) }
    ensures places { length places.new ≡ length places.old }
    ensures below { IfOk result (λ given. IsBelow (length places.old) given) }
{
    let given = enter_at(first, input, places, 0, 1, outs)?;
    along_places(alloc, others, given, places, outs)
}
