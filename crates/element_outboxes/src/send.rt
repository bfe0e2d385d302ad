//! Sending to all connections of a port.
ghost use Rattle.std.specs.Prelude.{◌≡◌, ◌++◌, ◌+◌, ◌<◌, ◌^◌, IfOk, List, ℕ};
ghost use Rattle.spl_value.specs.declared.packet.Packet.TheVariants as P;
ghost use Rattle.spl_value.specs.Numbered.{closes as closes_as};
ghost use Rattle.stream_model.specs.Fans.{fans_out, on_outputs};
ghost use Rattle.element_outboxes.specs.Waiting.{all_out, fan_outputs, fans_from, outputs_in, waits};

use crate::fan::{Fan, fan_of};
use crate::outbox::Outbox;
use language_model::{Output, Outs};
use spl_value::{Item, Items, NoMemory, Packet, copy_item};
use std::alloc::Global;

/// Whether nothing follows the item in a stream.
#[inline(always)]
pub fn closes(item: &Item) -> bool
    ensures { result ≡ closes_as item.now }
{
    match item {
        Item::Tuple(_) | Item::Window => false,
        Item::Final | Item::Bad(_) => true,
    }
}

/// `Close` on each of these outputs.
#[cold]
#[inline(never)]
pub fn send_close(outbox: &mut Outbox, fan: Fan) -> Result<(), NoMemory>
    requires within { fan.first + fan.count < 2 ^ 32 }
    ensures { IfOk result (λ _. waits outbox.new ≡ waits outbox.old ++ on_outputs (fan_outputs fan) P.Close) }
{
    for output in fan.first..fan.first + fan.count {
        outbox.add(output, Packet::Close)?;
    }
    Ok(())
}

/// Copies of an item on each of these outputs.
#[cold]
#[inline(never)]
fn send_copies(
    alloc: Global,
    outbox: &mut Outbox,
    fan: Fan,
    number: u64,
    item: &Item,
) -> Result<(), NoMemory>
    requires within { fan.first + fan.count < 2 ^ 32 }
    ensures { IfOk result (λ _. waits outbox.new ≡ waits outbox.old ++ on_outputs (fan_outputs fan) (P.Item number item.now)) }
{
    for output in fan.first..fan.first + fan.count {
        let item = copy_item(alloc, item)?;
        outbox.add(output, Packet::Item { number, item })?;
    }
    Ok(())
}

/// An item on each of these outputs. It is moved to the last of them.
#[inline(always)]
pub fn send_item(
    alloc: Global,
    outbox: &mut Outbox,
    fan: Fan,
    number: u64,
    item: Item,
) -> Result<(), NoMemory>
    requires within { fan.first + fan.count < 2 ^ 32 }
    ensures { IfOk result (λ _. waits outbox.new ≡ waits outbox.old ++ on_outputs (fan_outputs fan) (P.Item number item)) }
{
    if fan.count == 0 {
        return Ok(());
    }
    let others = fan.count - 1;
    if others > 0 {
        let others = Fan {
            first: fan.first,
            count: others,
        };
        send_copies(alloc, outbox, others, number, &item)?;
    }
    outbox.add(fan.first + others, Packet::Item { number, item })
}

/// An item to every connection of its port, and `Close` behind the last one of a stream.
#[inline(always)]
pub fn send_output(
    alloc: Global,
    outbox: &mut Outbox,
    fans: &Items<Fan>,
    output: Output,
) -> Result<(), NoMemory>
    requires within { (counts : List ℕ) × (fans.now ≡ fans_from 0 counts) × (outputs_in counts < 2 ^ 32) }
    ensures { IfOk result (λ _. (counts : List ℕ) → fans.now ≡ fans_from 0 counts → waits outbox.new ≡ waits outbox.old ++ fans_out counts output) }
{
    let fan = fan_of(fans, output.port);
    let last = closes(&output.item);
    send_item(alloc, outbox, fan, 0, output.item)?;
    if last {
        send_close(outbox, fan)?;
    }
    Ok(())
}

/// Sends what follows a first output.
#[cold]
#[inline(never)]
fn send_rest(
    alloc: Global,
    outbox: &mut Outbox,
    fans: &Items<Fan>,
    rest: Items<Output>,
) -> Result<(), NoMemory>
    requires within { (counts : List ℕ) × (fans.now ≡ fans_from 0 counts) × (outputs_in counts < 2 ^ 32) }
    ensures { IfOk result (λ _. (counts : List ℕ) → fans.now ≡ fans_from 0 counts → waits outbox.new ≡ waits outbox.old ++ all_out counts rest) }
{
    for output in rest.into_vec() {
        send_output(alloc, outbox, fans, output)?;
    }
    Ok(())
}

/// Sends what an element's last operator gave.
#[inline(always)]
pub fn send_all(
    alloc: Global,
    outbox: &mut Outbox,
    fans: &Items<Fan>,
    outs: Outs,
) -> Result<(), NoMemory>
    requires within { (counts : List ℕ) × (fans.now ≡ fans_from 0 counts) × (outputs_in counts < 2 ^ 32) }
    ensures { IfOk result (λ _. (counts : List ℕ) → fans.now ≡ fans_from 0 counts → waits outbox.new ≡ waits outbox.old ++ all_out counts outs) }
{
    let (first, rest) = outs.into_parts();
    let Some(output) = first else {
        return Ok(());
    };
    send_output(alloc, outbox, fans, output)?;
    if rest.is_empty() {
        return Ok(());
    }
    send_rest(alloc, outbox, fans, rest)
}
