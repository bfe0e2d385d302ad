//! The streams of an operator's inputs, out of the table of all streams.
ghost use Rattle.std.specs.Prelude.{◌≡◌, ◌<◌, ◌==◌, ◌||◌, [], ℕ, Some, IfOk, length, map, slice_get, slice_set};
ghost use Rattle.std.specs.List.{concat, Contains, list_any};
ghost use Rattle.stream_model.specs.CheckedMeaning.{graph_of};
ghost use Rattle.stream_model.specs.Ends.{is_read};
ghost use Rattle.stream_model.specs.Meaning.{Graph};
ghost use Rattle.stream_model.specs.Runs.{rows_at};
ghost use Rattle.list_engine.specs.steps.Reading.{ops_at};
ghost use Rattle.list_engine.specs.steps.Table.{LeftBehind, StaysFor};

use crate::readers::{is_among, is_read_later};
use language_model::Checked;
use spl_tree::Op;
use spl_value::{Ids, Item, Items, NoMemory, copy_item};
use std::alloc::Global;
use std::mem::replace;

/// The streams that an operator reads, by its inputs.
pub(crate) fn connections(alloc: Global, op: &Op) -> Result<Ids, NoMemory>
    ensures { IfOk result (λ streams. streams ≡ concat op.now.ins) }
{
    let mut streams = Items::new(alloc);
    for port in op.ins.as_slice() {
        streams.append(Items::from_slice(alloc, port.as_slice())?)?;
    }
    Ok(streams)
}

/// Takes a list out of several, in whose place there is an empty one then.
pub(crate) fn take(alloc: Global, lists: &mut Items<Items<Item>>, at: usize) -> Items<Item>
    requires { at < length lists.old }
    ensures list { slice_get lists.old at ≡ Some result }
    ensures others { lists.new ≡ slice_set lists.old at [] }
{
    replace(lists.item_mut(at), Items::new(alloc))
}

/// A copy of a stream.
fn copy_items(alloc: Global, items: &[Item]) -> Result<Items<Item>, NoMemory>
    ensures { IfOk result (λ copied. copied ≡ items.now) }
{
    let mut copied = Items::with_capacity(alloc, items.len())?;
    for item in items {
        copied.push(copy_item(alloc, item)?)?;
    }
    Ok(copied)
}

/// Whether a stream is one of those that come after it, or one of the later operators reads it.
fn is_wanted(checked: &Checked, later: &[u32], behind: &[u32], stream: u32) -> bool
    ensures { (g : Graph) → graph_of checked.now ≡ g
        → result ≡ (list_any (λ n. n == stream) behind.now || is_read (ops_at g later.now) stream) }
{
    is_among(behind, stream) || is_read_later(checked, later, stream)
}

/// A stream that an operator reads, which reads those after it too. It is taken out of the table where
/// nothing reads it any more.
fn stream_for(
    alloc: Global,
    checked: &Checked,
    later: &[u32],
    behind: &[u32],
    stream: u32,
    table: &mut Items<Items<Item>>,
) -> Result<Items<Item>, NoMemory>
    requires there { stream < length table.old }
    ensures items { IfOk result (λ items. items ≡ rows_at table.old stream) }
    ensures others { IfOk result (λ _. (g : Graph) → graph_of checked.now ≡ g
        → LeftBehind g later.now behind.now stream table.old table.new) }
{
    let at = stream as usize;
    if is_wanted(checked, later, behind, stream) {
        let Some(items) = table.get(at) else {
            unreachable!()
        };
        copy_items(alloc, items.as_slice())
    } else {
        Ok(take(alloc, table, at))
    }
}

/// The streams that an operator reads, with these numbers. Those that none of the later operators reads
/// are taken out of the table.
pub(crate) fn streams_for(
    alloc: Global,
    checked: &Checked,
    later: &[u32],
    connections: &[u32],
    table: &mut Items<Items<Item>>,
) -> Result<Items<Items<Item>>, NoMemory>
    requires there { (s : ℕ) → Contains connections.now s → s < length table.old }
    ensures lists { IfOk result (λ lists. lists ≡ map (rows_at table.old) connections.now) }
    ensures others { IfOk result (λ _. (g : Graph) → graph_of checked.now ≡ g
        → StaysFor g later.now connections.now table.old table.new) }
{
    let mut lists = Items::with_capacity(alloc, connections.len())?;
    let mut rest = connections;
    'inputs: while let [stream, behind @ ..] = rest {
        lists.push(stream_for(alloc, checked, later, behind, *stream, table)?)?;
        rest = behind;
    }
    Ok(lists)
}
