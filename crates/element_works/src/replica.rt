//! A replica takes a packet.
ghost use Rattle.std.specs.Prelude.{◌≡◌, ◌<◌, ◌++◌, ◌∷◌, [], IfOk, length};
ghost use Rattle.stream_model.specs.Stream.{came};
ghost use Rattle.operator_chains.specs.Places.{IsBelow, given_by};
ghost use Rattle.operator_chains.specs.Standing.{MayFeed};
ghost use Rattle.spl_value.specs.declared.item.Item.TheVariants as I;
ghost use Rattle.element_outboxes.specs.Waiting.{waits};
ghost use Rattle.element_works.specs.Tuples.{room_of, sink_waits};
ghost use Rattle.element_works.specs.Works.{HasAnswered, HasReplied, MayAnswer, MayReply, answers};

use crate::chains::feed_first;
use crate::tuples::Tuples;
use element_outboxes::Outbox;
use language_model::{Output, Outs};
use operator_chains::{Chain, Given};
use spl_value::{Item, Items, NoMemory, Packet, Values};
use std::alloc::Global;
use std::mem::replace;
use stream_model::React;

/// An item under the number of its cause.
#[inline(always)]
fn reply_one(outbox: &mut Outbox, number: u64, output: Output) -> Result<(), NoMemory>
    ensures { IfOk result (λ _. waits outbox.new ≡ waits outbox.old ++ answers number (output ∷ [])) }
{
    if output.port != 0 {
        return Ok(());
    }
    outbox.add(
        0,
        Packet::Item {
            number,
            item: output.item,
        },
    )
}

#[cold]
#[inline(never)]
fn reply_rest(outbox: &mut Outbox, number: u64, rest: Items<Output>) -> Result<(), NoMemory>
    ensures { IfOk result (λ _. waits outbox.new ≡ waits outbox.old ++ answers number rest) }
{
    for output in rest.into_vec() {
        reply_one(outbox, number, output)?;
    }
    Ok(())
}

/// All items that an item causes.
fn reply(outbox: &mut Outbox, number: u64, outs: Outs) -> Result<(), NoMemory>
    ensures { IfOk result (λ _. waits outbox.new ≡ waits outbox.old ++ answers number outs) }
{
    let (first, rest) = outs.into_parts();
    let Some(output) = first else {
        return Ok(());
    };
    reply_one(outbox, number, output)?;
    if rest.is_empty() {
        return Ok(());
    }
    reply_rest(outbox, number, rest)
}

/// The same, where it stands.
#[inline(always)]
fn reply_given(
    alloc: Global,
    outbox: &mut Outbox,
    tuples: &mut Tuples,
    number: u64,
    given: Given,
) -> Result<(), NoMemory>
    requires below { IsBelow (room_of tuples.old) given }
    ensures replies { IfOk result (λ _. waits outbox.new ≡ waits outbox.old ++ answers number (given_by given tuples.old.places.items tuples.old.outs)) }
    ensures room { room_of tuples.new ≡ room_of tuples.old }
    ensures ready { tuples.new.ready ≡ tuples.old.ready }
    ensures waiting { tuples.new.waiting.items ≡ tuples.old.waiting.items }
{
    match given {
        Given::Tuple(at) => {
            let tuple = replace(&mut tuples.places[at], Values::new(alloc));
            let item = Item::Tuple(tuple);
            outbox.add(0, Packet::Item { number, item })
        }
        Given::Nothing => Ok(()),
        Given::Outs => {
            let outs = replace(&mut tuples.outs, Outs::new(alloc));
            reply(outbox, number, outs)
        }
    }
}

/// Lets the operators of a replica take a tuple.
#[inline(always)]
fn reply_to_tuple<R: React>(
    alloc: Global,
    chain: &mut Chain<R>,
    outbox: &mut Outbox,
    tuples: &mut Tuples,
    number: u64,
    tuple: Values,
) -> Result<(), NoMemory>
    requires may { MayAnswer R.spec R.stands chain.old tuples.old (I.Tuple tuple) }
    ensures answers { IfOk result (λ _. HasAnswered R.spec R.stands chain.old chain.new tuples.old tuples.new outbox.old outbox.new number (I.Tuple tuple)) }
    ensures ready { tuples.new.ready ≡ tuples.old.ready }
    ensures waiting { tuples.new.waiting.items ≡ tuples.old.waiting.items }
{
    let mut tuple = tuple;
    tuples.enter(&mut tuple);
    let given = feed_first(alloc, chain, tuples, 0)?;
    reply_given(alloc, outbox, tuples, number, given)
}

/// Lets them take any item.
#[inline(always)]
fn reply_to_item<R: React>(
    alloc: Global,
    chain: &mut Chain<R>,
    outbox: &mut Outbox,
    tuples: &mut Tuples,
    number: u64,
    item: Item,
) -> Result<(), NoMemory>
    requires may { MayAnswer R.spec R.stands chain.old tuples.old item }
    ensures answers { IfOk result (λ _. HasAnswered R.spec R.stands chain.old chain.new tuples.old tuples.new outbox.old outbox.new number item) }
    ensures ready { tuples.new.ready ≡ tuples.old.ready }
    ensures waiting { tuples.new.waiting.items ≡ tuples.old.waiting.items }
{
    match item {
        Item::Tuple(tuple) => reply_to_tuple(alloc, chain, outbox, tuples, number, tuple),
        other => {
            let outs = chain.feed(alloc, 0, other)?;
            reply(outbox, number, outs)
        }
    }
}

/// Lets a replica take a packet but `Cut`. No tuple waits for a sink: it has none.
pub fn run_replica<R: React>(
    alloc: Global,
    chain: &mut Chain<R>,
    outbox: &mut Outbox,
    tuples: &mut Tuples,
    packet: Packet,
) -> Result<(), NoMemory>
    requires may { MayReply R.spec R.stands chain.old tuples.old packet }
    ensures replies { IfOk result (λ _. HasReplied R.spec R.stands chain.old chain.new tuples.old tuples.new outbox.old outbox.new packet) }
    ensures idle { sink_waits tuples.old ≡ [] → sink_waits tuples.new ≡ [] }
{
    match packet {
        Packet::Item { number, item } => {
            reply_to_item(alloc, chain, outbox, tuples, number, item)
        }
        Packet::Pulse(number) => outbox.add(0, Packet::Pulse(number)),
        Packet::Close => outbox.add(0, Packet::Close),
        Packet::Cut => Ok(()),
    }
}
