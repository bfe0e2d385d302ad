//! What the work of an element makes of a packet.
ghost use Rattle.std.specs.Prelude.{◌≡◌, ◌++◌, ◌∷◌, ◌&&◌, [], true, false, IfOk, List};
ghost use Rattle.spl_value.specs.declared.value.Value.{Value};
ghost use Rattle.spl_value.specs.Numbered.{is_cut};
ghost use Rattle.network_model.specs.Adds.{adds};
ghost use Rattle.network_model.specs.Networks.{Part, RegionPart, Splitter as SplitterPart};
ghost use Rattle.network_model.specs.Packets.{items_in};
ghost use Rattle.network_model.specs.Receipts.{Receipt, Popped, popped};
ghost use Rattle.network_model.specs.Sinks.{pours_more};
ghost use Rattle.stream_model.specs.declared.outgoing.Outgoing.{Outgoing};
ghost use Rattle.element_notes.specs.Endings.{how_ended, is_recorded as is_recorded_as};
ghost use Rattle.element_notes.specs.Noting.{HasNoted};
ghost use Rattle.element_outboxes.specs.Waiting.{waits};
ghost use Rattle.element_works.specs.Tuples.{IsKept, sink_waits};
ghost use Rattle.element_works.specs.Works.{ChainAt, SplitterAt};
ghost use Rattle.element_works.specs.declared.tuples.Tuples.{Tuples as TuplesSpec};
ghost use Rattle.element_outboxes.specs.declared.fan.Fan.{Fan as FanSpec};
ghost use Rattle.elements.specs.Works.{Enters, HasInput, HasWorked, MayWork, WorkAt, is_event_of, is_item as is_item_as, wants_more};

use element_notes::Notes;
use element_outboxes::{Fan, Outbox};
use element_works::{Tuples, run_chain, run_replica, run_splitter};
use hash_splitter::Splitter;
use merger_works::run_merger;
use operator_chains::{Chain, How};
use order_merger::{NumberMerger, TurnMerger};
use pulse_rule::PulseMerger;
use spl_value::{Items, NoMemory, Packet};
use std::alloc::Global;
use stream_model::React;

/// What an element does with what it takes.
#[derive(Drop)]
pub enum Work<R> {
    Chain(Chain<R>),
    Replica(Chain<R>),
    Splitter(Splitter),
    Turns(TurnMerger),
    Numbers(NumberMerger),
    Pulses(PulseMerger),
}

/// A chain takes a packet: an item is an event, and others are none. How its last operator stands then, where it stood so
/// before.
#[inline(always)]
fn chain_takes<R: React>(
    alloc: Global,
    chain: &mut Chain<R>,
    fans: &Items<Fan>,
    outbox: &mut Outbox,
    tuples: &mut Tuples,
    input: u32,
    packet: Packet,
    how: How,
) -> Result<How, NoMemory>
    requires may { (part : Part) × (receipts : List Receipt) × ChainAt R.spec R.stands part receipts chain.old fans.now tuples.old
        × MayWork part receipts (Popped input packet) }
    requires kept { IsKept tuples.old }
    ensures takes { IfOk result (λ _. (part : Part) (receipts : List Receipt) → ChainAt R.spec R.stands part receipts chain.old fans.now tuples.old
        → MayWork part receipts (Popped input packet)
        → ChainAt R.spec R.stands part (receipts ++ Popped input packet ∷ []) chain.new fans.now tuples.new
        × (waits outbox.new ≡ waits outbox.old ++ adds part receipts (Popped input packet))
        × (sink_waits tuples.new ≡ sink_waits tuples.old ++ pours_more part receipts (Popped input packet))) }
    ensures how { IfOk result (λ now. (part : Part) (receipts : List Receipt) → ChainAt R.spec R.stands part receipts chain.old fans.now tuples.old
        → MayWork part receipts (Popped input packet) → how ≡ how_ended part receipts
        → now ≡ how_ended part (receipts ++ Popped input packet ∷ [])) }
    ensures kept { IfOk result (λ _. IsKept tuples.new) }
{
    match packet {
        Packet::Item { number: _, item } => {
            run_chain(alloc, chain, fans, outbox, tuples, input, item)?;
            Ok(chain.how(how))
        }
        Packet::Pulse(_) => Ok(how),
        Packet::Close => Ok(how),
        Packet::Cut => Ok(how),
    }
}

/// A splitter of so many channels takes a packet: an item goes to its channel, and others go nowhere.
fn splitter_takes(
    splitter: &mut Splitter,
    width: u32,
    outbox: &mut Outbox,
    packet: Packet,
) -> Result<(), NoMemory>
    requires may { (region : RegionPart) × (receipts : List Receipt) × SplitterAt region receipts splitter.old × (width ≡ region.width)
        × Enters region (items_in (popped 0 receipts)) packet }
    ensures takes { IfOk result (λ _. (region : RegionPart) (receipts : List Receipt) → SplitterAt region receipts splitter.old
        → Enters region (items_in (popped 0 receipts)) packet
        → SplitterAt region (receipts ++ Popped 0 packet ∷ []) splitter.new
        × (waits outbox.new ≡ waits outbox.old ++ adds (SplitterPart region) receipts (Popped 0 packet))) }
{
    match packet {
        Packet::Item { number: _, item } => run_splitter(splitter, width, outbox, item),
        Packet::Pulse(_) => Ok(()),
        Packet::Close => Ok(()),
        Packet::Cut => Ok(()),
    }
}

/// Whether a packet is an item.
#[inline(always)]
fn is_item(packet: &Packet) -> bool
    ensures { result ≡ is_item_as packet.now }
{
    match packet {
        Packet::Item { .. } => true,
        Packet::Pulse(_) | Packet::Close | Packet::Cut => false,
    }
}

/// Whether a packet is an event of the first operator of a chain, which hasn't ended.
#[inline(always)]
fn is_event<R: React>(work: &Work<R>, packet: &Packet) -> bool
    ensures { (part : Part) (receipts : List Receipt) (fans : List FanSpec) (tuples : TuplesSpec)
        → WorkAt R.spec R.stands part receipts work.now fans tuples → is_recorded_as part ≡ true → result ≡ is_event_of part receipts packet.now }
{
    match work {
        Work::Chain(chain) => is_item(packet) && chain.is_live(),
        Work::Replica(_) | Work::Splitter(_) => false,
        Work::Turns(_) | Work::Numbers(_) | Work::Pulses(_) => false,
    }
}

/// Whether a packet is an event whose input is recorded.
#[inline(always)]
pub(crate) fn is_recorded<R: React>(notes: &Notes, work: &Work<R>, packet: &Packet) -> bool
    ensures { (part : Part) (receipts : List Receipt) (pushed : List Outgoing) (poured : List (List Value)) (fans : List FanSpec) (tuples : TuplesSpec)
        → HasNoted part notes.now receipts pushed poured → WorkAt R.spec R.stands part receipts work.now fans tuples
        → result ≡ (is_recorded_as part && is_event_of part receipts packet.now) }
{
    if !notes.records() {
        return false;
    }
    is_event(work, packet)
}

/// Lets the work take a packet but `Cut`, and adds what is owed for it. How its last operator stands then, where it stood
/// so before.
#[inline(always)]
pub(crate) fn work_takes<R: React>(
    alloc: Global,
    work: &mut Work<R>,
    fans: &Items<Fan>,
    outbox: &mut Outbox,
    tuples: &mut Tuples,
    input: u32,
    packet: Packet,
    how: How,
) -> Result<How, NoMemory>
    requires uncut { is_cut packet ≡ false }
    requires may { (part : Part) × (receipts : List Receipt) × WorkAt R.spec R.stands part receipts work.old fans.now tuples.old
        × MayWork part receipts (Popped input packet) }
    requires kept { IsKept tuples.old }
    ensures takes { IfOk result (λ _. (part : Part) (receipts : List Receipt) → WorkAt R.spec R.stands part receipts work.old fans.now tuples.old
        → MayWork part receipts (Popped input packet)
        → HasWorked R.spec R.stands part receipts (Popped input packet) work.new fans.now tuples.old tuples.new outbox.old outbox.new) }
    ensures how { IfOk result (λ now. (part : Part) (receipts : List Receipt) → WorkAt R.spec R.stands part receipts work.old fans.now tuples.old
        → MayWork part receipts (Popped input packet) → how ≡ how_ended part receipts
        → now ≡ how_ended part (receipts ++ Popped input packet ∷ [])) }
    ensures kept { IfOk result (λ _. IsKept tuples.new) }
{
    match work {
        Work::Chain(chain) => chain_takes(alloc, chain, fans, outbox, tuples, input, packet, how),
        Work::Replica(chain) => {
            run_replica(alloc, chain, outbox, tuples, packet)?;
            Ok(how)
        }
        Work::Splitter(splitter) => {
            splitter_takes(splitter, fans.len() as u32, outbox, packet)?;
            Ok(how)
        }
        Work::Turns(merger) => run_merger(alloc, merger, fans, outbox, input, packet, how),
        Work::Numbers(merger) => run_merger(alloc, merger, fans, outbox, input, packet, how),
        Work::Pulses(merger) => run_merger(alloc, merger, fans, outbox, input, packet, how),
    }
}

/// Whether the work wants a packet from an input: a merger where the channel has no head.
pub(crate) fn work_wants<R>(work: &Work<R>, input: u32) -> bool
    requires within { HasInput work.now input }
    ensures { result ≡ wants_more work.now input }
{
    match work {
        Work::Chain(_) | Work::Replica(_) | Work::Splitter(_) => true,
        Work::Turns(merger) => merger.wants(input),
        Work::Numbers(merger) => merger.wants(input),
        Work::Pulses(merger) => merger.wants(input),
    }
}
