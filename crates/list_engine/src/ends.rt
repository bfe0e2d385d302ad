//! The fault of a run.
ghost use Rattle.std.specs.Prelude.{◌≡◌, ◌<◌, length, slice_get, Some};
ghost use Rattle.stream_model.specs.CheckedMeaning.{graph_of};
ghost use Rattle.stream_model.specs.Ends.{stream_fault};
ghost use Rattle.stream_model.specs.Meaning.{Graph};
ghost use Rattle.stream_model.specs.Operators.{Operator};
ghost use Rattle.stream_model.specs.Runs.{rows_at};
ghost use Rattle.list_engine.specs.steps.Faults.{fault_at, unread_fault, unread_faults, kept_fault, kept_faults};

use crate::readers::is_read;
use crate::state::State;
use language_model::Checked;
use spl_value::{Fault, Item, Items};

/// The fault that ends a stream.
fn fault_in(items: &[Item]) -> Option<Fault>
    ensures { result ≡ stream_fault items.now }
{
    for item in items {
        match item {
            Item::Tuple(_) | Item::Window => {}
            Item::Final => return None,
            Item::Bad(fault) => return Some(*fault),
        }
    }
    None
}

/// The fault that ends the stream with this number.
fn fault_of_stream(streams: &Items<Items<Item>>, stream: u32) -> Option<Fault>
    ensures { result ≡ stream_fault (rows_at streams.now stream) }
{
    match streams.get(stream as usize) {
        Some(items) => fault_in(items.as_slice()),
        None => None,
    }
}

/// The fault of a stream that nothing reads.
fn unread_fault(checked: &Checked, streams: &Items<Items<Item>>, stream: u32) -> Option<Fault>
    ensures { (g : Graph) → graph_of checked.now ≡ g → result ≡ unread_fault g streams.now stream }
{
    if is_read(checked, stream) {
        None
    } else {
        fault_of_stream(streams, stream)
    }
}

/// The first fault of those of some streams that nothing reads.
fn unread_faults(checked: &Checked, streams: &Items<Items<Item>>, outs: &[u32]) -> Option<Fault>
    ensures { (g : Graph) → graph_of checked.now ≡ g → result ≡ unread_faults g streams.now outs.now }
{
    let mut rest = outs;
    'streams: while let [stream, behind @ ..] = rest {
        let fault = unread_fault(checked, streams, *stream);
        if fault.is_some() {
            return fault;
        }
        rest = behind;
    }
    None
}

/// The fault with which the operator with this number ended, where it is kept.
fn own_fault(faults: &Items<Option<Fault>>, number: usize) -> Option<Fault>
    ensures { result ≡ fault_at faults.now number }
{
    match faults.get(number) {
        Some(fault) => *fault,
        None => None,
    }
}

/// The fault of the first of an operator's ends with one: its own where it has no output port, else that
/// of one of its streams that nothing reads.
fn fault_of_end(checked: &Checked, state: &State, number: usize) -> Option<Fault>
    requires number { number < length checked.now.graph.ops }
    ensures { (g : Graph) (op : Operator) → graph_of checked.now ≡ g → slice_get g.ops number ≡ Some op
        → result ≡ kept_fault g state.now number op.outs }
{
    let Some(op) = checked.graph.ops.get(number) else {
        unreachable!()
    };
    if op.outs.is_empty() {
        own_fault(&state.faults, number)
    } else {
        unread_faults(checked, &state.streams, op.outs.as_slice())
    }
}

/// The fault of a run: that of the first end, in the order of operators and then of ports, that ended
/// with one.
pub(crate) fn fault_of_run(checked: &Checked, state: &State) -> Option<Fault>
    ensures { (g : Graph) → graph_of checked.now ≡ g → result ≡ kept_faults g state.now 0 g.ops }
{
    for number in 0..checked.graph.ops.len() {
        let fault = fault_of_end(checked, state, number);
        if fault.is_some() {
            return fault;
        }
    }
    None
}
