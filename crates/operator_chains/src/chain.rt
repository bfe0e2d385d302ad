//! A chain of operators.
ghost use Rattle.std.specs.Prelude.{◌≡◌, ◌∷◌, ◌++◌, [], List, IfOk, length, not};
ghost use Rattle.spl_value.specs.declared.item.Item.TheVariants as I;
ghost use Rattle.stream_model.specs.Stages.{Stage, gives_all, stage_after, start};
ghost use Rattle.stream_model.specs.Stream.{Event, came};
ghost use Rattle.stream_model.specs.Chains.{chain_gives, chain_after, stages_passed};
ghost use Rattle.operator_chains.specs.Hows.{last_how};
ghost use Rattle.operator_chains.specs.Places.{IsBelow, given_by, tuple_at};
ghost use Rattle.operator_chains.specs.Standing.{places_of, AtChain, AtStage, AtStages, MayFeed};

use crate::along::along;
use crate::along_places::through_places;
use crate::given::Given;
use crate::how::How;
use crate::slot::{Slot, enter};
use language_model::{Output, Outs};
use spl_value::{Item, NoMemory, Values};
use std::alloc::Global;
use stream_model::React;

/// Operators of which each but the first reads what the one before it gives. Where there is none, a source gives
/// its items by itself.
#[derive(Drop)]
pub struct Chain<R> {
    pub(crate) first: Option<Slot<R>>,
    pub(crate) others: Vec<Slot<R>>,
}

/// An item alone, as a source gives it.
fn alone(alloc: Global, item: Item) -> Result<Outs, NoMemory>
    ensures { IfOk result (λ outs. outs ≡ record { port = 0; item = item } ∷ []) }
{
    let mut outs = Outs::new(alloc);
    outs.push(Output { port: 0, item })?;
    Ok(outs)
}

/// Lets the first operator take an item, and passes on what it gives.
#[inline(always)]
fn through<R: React>(
    alloc: Global,
    first: &mut Slot<R>,
    others: &mut [Slot<R>],
    input: u32,
    item: Item,
) -> Result<Outs, NoMemory>
    requires may { (s : Stage) × (ss : List Stage) × AtStage R.spec R.stands first.old s × AtStages R.spec R.stands others.old ss × MayFeed (s ∷ ss) (came input item) }
    ensures gives { IfOk result (λ outs. (s : Stage) (ss : List Stage) → AtStage R.spec R.stands first.old s → AtStages R.spec R.stands others.old ss → MayFeed (s ∷ ss) (came input item)
        → (outs ≡ chain_gives (s ∷ ss) (came input item ∷ [])) × AtStage R.spec R.stands first.new (stage_after s (came input item ∷ []))
        × AtStages R.spec R.stands others.new (stages_passed ss (gives_all s (came input item ∷ [])))) }
{
    let caused = enter(alloc, first, input, item)?;
    along(alloc, others, caused)
}

impl<R: React> Chain<R> {
    /// No operator.
    pub fn new(alloc: Global) -> Chain<R>
        ensures { AtChain R.spec R.stands result [] }
    {
        Chain {
            first: None,
            others: Vec::new(alloc),
        }
    }

    /// Adds an operator behind the others, which has taken nothing.
    pub fn push(&mut self, operator: R) -> Result<(), NoMemory>
        ensures adds { IfOk result (λ _. (ss : List Stage) → AtChain R.spec R.stands self.old ss → R.stands operator []
            → AtChain R.spec R.stands self.new (ss ++ start (R.spec operator) ∷ [])) }
    {
        let slot = Slot::new(operator);
        match self.first {
            None => self.first = Some(slot),
            Some(_) => self.others.push(slot)?,
        }
        Ok(())
    }

    /// Lets the first operator take an item on an input, and passes on what it gives. What the last one gives.
    #[inline(always)]
    pub fn feed(&mut self, alloc: Global, input: u32, item: Item) -> Result<Outs, NoMemory>
        requires may { (ss : List Stage) × AtChain R.spec R.stands self.old ss × MayFeed ss (came input item) }
        ensures gives { IfOk result (λ outs. (ss : List Stage) → AtChain R.spec R.stands self.old ss → MayFeed ss (came input item)
            → (outs ≡ chain_gives ss (came input item ∷ [])) × AtChain R.spec R.stands self.new (chain_after ss (came input item ∷ []))) }
    {
        match &mut self.first {
            None => alone(alloc, item),
            Some(first) => through(alloc, first, self.others.as_mut_slice(), input, item),
        }
    }

    /// How the last operator stands; where there is none, as the stream does that is handed in.
    #[inline(always)]
    pub fn how(&self, alone: How) -> How
        ensures { (ss : List Stage) → AtChain R.spec R.stands self.now ss → result ≡ last_how alone ss }
    {
        match &self.first {
            None => alone,
            Some(first) => match self.others.as_slice().last() {
                Some(slot) => slot.how,
                None => first.how,
            },
        }
    }

    /// Whether there is a first operator that hasn't ended.
    pub fn is_live(&self) -> bool
        ensures { (s : Stage) (ss : List Stage) → AtChain R.spec R.stands self.now (s ∷ ss) → result ≡ not s.over }
    {
        match &self.first {
            None => false,
            Some(first) => match first.how {
                How::Live => true,
                How::Final | How::Bad(_) => false,
            },
        }
    }

    /// How many places it needs: one for the tuple that comes, and one for each operator.
    pub fn places(&self) -> usize
        ensures { result ≡ places_of self.now }
    {
        match self.first {
            None => 1,
            Some(_) => self.others.len() + 2,
        }
    }

    /// Lets the first operator take, on an input, the tuple at the first place, and passes on what it gives. What the
    /// last one gives stands at a place or among the outputs, where what stood before is of no account.
    #[inline(always)]
    pub fn feed_tuple(
        &mut self,
        alloc: Global,
        input: u32,
        places: &mut [Values],
        outs: &mut Outs,
    ) -> Result<Given, NoMemory>
        requires may { (ss : List Stage) × AtChain R.spec R.stands self.old ss × MayFeed ss (came input (I.Tuple (tuple_at places.old 0))) }
        requires room { length places.old ≡ places_of self.old }
        ensures gives { IfOk result (λ given. (ss : List Stage) → AtChain R.spec R.stands self.old ss → MayFeed ss (came input (I.Tuple (tuple_at places.old 0)))
            → (given_by given places.new outs.new ≡ chain_gives ss (came input (I.Tuple (tuple_at places.old 0)) ∷ []))
            × AtChain R.spec R.stands self.new (chain_after ss (came input (I.Tuple (tuple_at places.old 0)) ∷ []))) }
        ensures places { length places.new ≡ length places.old }
        ensures below { IfOk result (λ given. IsBelow (length places.old) given) }
        ensures room { places_of self.new ≡ places_of self.old }
    {
        match &mut self.first {
            None => Ok(Given::Tuple(0)),
            Some(first) => {
                let others = self.others.as_mut_slice();
                through_places(alloc, first, others, input, places, outs)
            }
        }
    }
}
