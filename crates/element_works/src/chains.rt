//! A chain takes an item.
ghost use Rattle.std.specs.Prelude.{◌≡◌, ◌<◌, ◌^◌, ◌++◌, ◌∷◌, [], IfOk, List, ℕ, length};
ghost use Rattle.spl_value.specs.declared.item.Item.TheVariants as I;
ghost use Rattle.stream_model.specs.Chains.{chain_after, chain_gives};
ghost use Rattle.stream_model.specs.Stages.{Stage};
ghost use Rattle.stream_model.specs.Stream.{came};
ghost use Rattle.operator_chains.specs.Places.{IsBelow, given_by, tuple_at};
ghost use Rattle.operator_chains.specs.Standing.{AtChain, MayFeed, places_of};
ghost use Rattle.element_outboxes.specs.Waiting.{all_out, fans_from, outputs_in, waits};
ghost use Rattle.element_works.specs.Tuples.{IsKept, room_of};
ghost use Rattle.element_works.specs.Works.{HasTakenItem, MayTakeItem};

use crate::tuples::Tuples;
use element_outboxes::{Fan, Outbox, send_all, send_output};
use language_model::{Output, Outs};
use operator_chains::{Chain, Given};
use spl_value::{Item, Items, NoMemory, Values};
use std::alloc::Global;
use std::mem::replace;
use stream_model::React;

/// Lets a chain take, on an input, the tuple at its first place, and passes on what it gives.
#[inline(always)]
pub(crate) fn feed_first<R: React>(
    alloc: Global,
    chain: &mut Chain<R>,
    tuples: &mut Tuples,
    input: u32,
) -> Result<Given, NoMemory>
    requires may { (ss : List Stage) × AtChain R.spec R.stands chain.old ss × MayFeed ss (came input (I.Tuple (tuple_at tuples.old.places.items 0))) }
    requires room { room_of tuples.old ≡ places_of chain.old }
    ensures gives { IfOk result (λ given. (ss : List Stage) → AtChain R.spec R.stands chain.old ss → MayFeed ss (came input (I.Tuple (tuple_at tuples.old.places.items 0)))
        → (given_by given tuples.new.places.items tuples.new.outs ≡ chain_gives ss (came input (I.Tuple (tuple_at tuples.old.places.items 0)) ∷ []))
        × AtChain R.spec R.stands chain.new (chain_after ss (came input (I.Tuple (tuple_at tuples.old.places.items 0)) ∷ []))) }
    ensures below { IfOk result (λ given. IsBelow (room_of tuples.new) given) }
    ensures room { room_of tuples.new ≡ room_of tuples.old }
    ensures same { places_of chain.new ≡ places_of chain.old }
    ensures ready { tuples.new.ready ≡ tuples.old.ready }
    ensures waiting { tuples.new.waiting.items ≡ tuples.old.waiting.items }
{
    let places = tuples.places.as_mut_slice();
    chain.feed_tuple(alloc, input, places, &mut tuples.outs)
}

/// Sends what the last operator of a chain gave to that one's connections.
#[inline(always)]
fn send_given(
    alloc: Global,
    fans: &Items<Fan>,
    outbox: &mut Outbox,
    tuples: &mut Tuples,
    given: Given,
) -> Result<(), NoMemory>
    requires fans { (counts : List ℕ) × (fans.now ≡ fans_from 0 counts) × (outputs_in counts < 2 ^ 32) }
    requires below { IsBelow (room_of tuples.old) given }
    ensures sends { IfOk result (λ _. (counts : List ℕ) → fans.now ≡ fans_from 0 counts
        → waits outbox.new ≡ waits outbox.old ++ all_out counts (given_by given tuples.old.places.items tuples.old.outs)) }
    ensures ready { tuples.new.ready ≡ tuples.old.ready }
    ensures waiting { tuples.new.waiting.items ≡ tuples.old.waiting.items }
    ensures room { room_of tuples.new ≡ room_of tuples.old }
{
    match given {
        Given::Tuple(at) => {
            let tuple = replace(&mut tuples.places[at], Values::new(alloc));
            let output = Output {
                port: 0,
                item: Item::Tuple(tuple),
            };
            send_output(alloc, outbox, fans, output)
        }
        Given::Nothing => Ok(()),
        Given::Outs => {
            let outs = replace(&mut tuples.outs, Outs::new(alloc));
            send_all(alloc, outbox, fans, outs)
        }
    }
}

/// Lets a chain take a tuple on an input of its first operator, or of its source. The tuple is moved to the chain's first
/// place, and what stood there comes back in its place, to be written over. What the last operator gives goes to that one's
/// connections, and of a sink to its writer.
#[inline(always)]
pub fn run_tuple<R: React>(
    alloc: Global,
    chain: &mut Chain<R>,
    fans: &Items<Fan>,
    outbox: &mut Outbox,
    tuples: &mut Tuples,
    input: u32,
    tuple: &mut Values,
) -> Result<(), NoMemory>
    requires may { MayTakeItem R.spec R.stands chain.old fans.now tuples.old input (I.Tuple tuple.old) }
    requires kept { IsKept tuples.old }
    ensures takes { IfOk result (λ _. HasTakenItem R.spec R.stands chain.old chain.new fans.now tuples.old tuples.new outbox.old outbox.new input (I.Tuple tuple.old)) }
    ensures kept { IfOk result (λ _. IsKept tuples.new) }
{
    tuples.free_places(alloc)?;
    tuples.enter(tuple);
    let given = feed_first(alloc, chain, tuples, input)?;
    if fans.is_empty() {
        tuples.pour_given(alloc, given)
    } else {
        send_given(alloc, fans, outbox, tuples, given)
    }
}

/// The same of any item.
#[cold]
#[inline(never)]
fn run_other<R: React>(
    alloc: Global,
    chain: &mut Chain<R>,
    fans: &Items<Fan>,
    outbox: &mut Outbox,
    tuples: &mut Tuples,
    input: u32,
    item: Item,
) -> Result<(), NoMemory>
    requires may { MayTakeItem R.spec R.stands chain.old fans.now tuples.old input item }
    requires kept { IsKept tuples.old }
    ensures takes { IfOk result (λ _. HasTakenItem R.spec R.stands chain.old chain.new fans.now tuples.old tuples.new outbox.old outbox.new input item) }
    ensures kept { IfOk result (λ _. IsKept tuples.new) }
{
    let outs = chain.feed(alloc, input, item)?;
    if fans.is_empty() {
        tuples.pour(outs)
    } else {
        send_all(alloc, outbox, fans, outs)
    }
}

/// Lets a chain take an item on an input of its first operator, or of its source. What the last operator gives goes to that
/// one's connections, and of a sink to its writer.
#[inline(always)]
pub fn run_chain<R: React>(
    alloc: Global,
    chain: &mut Chain<R>,
    fans: &Items<Fan>,
    outbox: &mut Outbox,
    tuples: &mut Tuples,
    input: u32,
    item: Item,
) -> Result<(), NoMemory>
    requires may { MayTakeItem R.spec R.stands chain.old fans.now tuples.old input item }
    requires kept { IsKept tuples.old }
    ensures takes { IfOk result (λ _. HasTakenItem R.spec R.stands chain.old chain.new fans.now tuples.old tuples.new outbox.old outbox.new input item) }
    ensures kept { IfOk result (λ _. IsKept tuples.new) }
{
    match item {
        Item::Tuple(values) => {
            let mut tuple = values;
            run_tuple(alloc, chain, fans, outbox, tuples, input, &mut tuple)
        }
        Item::Window => run_other(alloc, chain, fans, outbox, tuples, input, Item::Window),
        Item::Final => run_other(alloc, chain, fans, outbox, tuples, input, Item::Final),
        Item::Bad(fault) => run_other(alloc, chain, fans, outbox, tuples, input, Item::Bad(fault)),
    }
}
