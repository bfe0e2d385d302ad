//! A splitter takes an item.
ghost use Rattle.std.specs.Prelude.{◌≡◌, ◌+◌, ◌++◌, ◌∷◌, ◌<◌, ◌≤◌, ◌^◌, [], false, IfOk, List, ℕ};
ghost use Rattle.spl_value.specs.declared.packet.Packet.TheVariants as P;
ghost use Rattle.hash_splitter.specs.Splitting.{IsRoutable};
ghost use Rattle.stream_model.specs.Fans.{on_outputs};
ghost use Rattle.stream_model.specs.Stream.{any_closes};
ghost use Rattle.network_model.specs.Adds.{adds};
ghost use Rattle.network_model.specs.Networks.{RegionPart, Splitter as SplitterPart};
ghost use Rattle.network_model.specs.Packets.{items_in};
ghost use Rattle.network_model.specs.Receipts.{Receipt, Popped, popped};
ghost use Rattle.element_outboxes.specs.Waiting.{fan_outputs, waits};
ghost use Rattle.element_works.specs.Works.{SplitterAt, close_behind, pulse_behind};

use element_outboxes::{Fan, Outbox, closes, send_close};
use hash_splitter::Splitter;
use spl_value::{Item, NoMemory, Packet};

/// A pulse on each of these outputs.
#[cold]
#[inline(never)]
fn send_pulse(outbox: &mut Outbox, fan: Fan, number: u64) -> Result<(), NoMemory>
    requires within { fan.first + fan.count < 2 ^ 32 }
    ensures { IfOk result (λ _. waits outbox.new ≡ waits outbox.old ++ on_outputs (fan_outputs fan) (P.Pulse number)) }
{
    for output in fan.first..fan.first + fan.count {
        outbox.add(output, Packet::Pulse(number))?;
    }
    Ok(())
}

/// A pulse on each of these outputs, where one is due.
#[inline(always)]
fn pulse_each(splitter: &mut Splitter, outbox: &mut Outbox, all: Fan) -> Result<(), NoMemory>
    requires within { all.first + all.count < 2 ^ 32 }
    requires unpulsed { splitter.old.pulsed < splitter.old.sent }
    ensures sends { IfOk result (λ _. waits outbox.new ≡ waits outbox.old ++ pulse_behind splitter.old all) }
    ensures splitter { splitter.new ≡ record splitter.old { pulsed = splitter.new.pulsed } }
    ensures earlier { splitter.new.pulsed ≤ splitter.new.sent }
{
    match splitter.pulse() {
        Some(number) => send_pulse(outbox, all, number),
        None => Ok(()),
    }
}

/// `Close` on each of them, behind the last item.
#[inline(always)]
fn close_each(outbox: &mut Outbox, all: Fan, last: bool) -> Result<(), NoMemory>
    requires within { all.first + all.count < 2 ^ 32 }
    ensures { IfOk result (λ _. waits outbox.new ≡ waits outbox.old ++ close_behind last all) }
{
    if last {
        send_close(outbox, all)
    } else {
        Ok(())
    }
}

/// Lets a splitter of so many channels take an item, behind which none came that closes the stream. It goes to its channel,
/// a pulse follows on each channel where one is due, and behind the last item `Close`.
pub fn run_splitter(
    splitter: &mut Splitter,
    width: u32,
    outbox: &mut Outbox,
    item: Item,
) -> Result<(), NoMemory>
    requires room { splitter.old.sent < 2 ^ 61 }
    requires routable { IsRoutable splitter.old.routing item }
    requires width { splitter.old.width ≡ width }
    requires earlier { splitter.old.pulsed ≤ splitter.old.sent }
    ensures splits { IfOk result (λ _. (region : RegionPart) (receipts : List Receipt) (number : ℕ) → SplitterAt region receipts splitter.old
        → any_closes (items_in (popped 0 receipts)) ≡ false
        → SplitterAt region (receipts ++ Popped 0 (P.Item number item) ∷ []) splitter.new
        × (waits outbox.new ≡ waits outbox.old ++ adds (SplitterPart region) receipts (Popped 0 (P.Item number item)))) }
{
    let all = Fan {
        first: 0,
        count: width,
    };
    let last = closes(&item);
    let (channel, packet) = splitter.send(item);
    outbox.add(channel, packet)?;
    pulse_each(splitter, outbox, all)?;
    close_each(outbox, all, last)
}
