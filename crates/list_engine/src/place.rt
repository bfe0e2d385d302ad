//! What an operator gave, into what a run keeps.
ghost use Rattle.std.specs.Prelude.{◌≡◌, ◌<◌, ℕ, length};
ghost use Rattle.std.specs.List.{Contains};
ghost use Rattle.language_model.specs.Keeping.{Once};
ghost use Rattle.stream_model.specs.Runs.{rows_at};
ghost use Rattle.list_engine.specs.steps.Keeping.{HasRoom, IsKept, kept_ports};
ghost use Rattle.list_engine.specs.steps.Table.{IsPlaced};

use crate::operator::Given;
use crate::state::State;
use spl_tree::Op;
use spl_value::{Fault, Item, Items};

/// How many lists are kept of what an operator gives: one for each output port, or that of its writer.
pub(crate) fn kept_ports(op: &Op) -> usize
    ensures { result ≡ kept_ports op.now.outs }
{
    if op.outs.is_empty() { 1 } else { op.outs.len() }
}

/// Puts lists into a table, each at its place.
fn place_lists(lists: Items<Items<Item>>, places: &[u32], table: &mut Items<Items<Item>>)
    requires count { length lists ≡ length places.now }
    requires once { Once places.now }
    requires there { (s : ℕ) → Contains places.now s → s < length table.old }
    ensures { IsPlaced lists places.now table.old table.new }
{
    let mut rest = places;
    for items in lists.into_vec() {
        let [place, behind @ ..] = rest else {
            unreachable!()
        };
        table.set(*place as usize, items);
        rest = behind;
    }
}

/// The one of these lists.
fn only_list(lists: Items<Items<Item>>) -> Items<Item>
    requires { length lists ≡ 1 }
    ensures { result ≡ rows_at lists 0 }
{
    let mut lists = lists;
    let Some(items) = lists.pop() else {
        unreachable!()
    };
    items
}

/// Keeps what the operator with this number gave, and how it ended: its streams, or else the items of its
/// writer and its fault.
pub(crate) fn keep(op: &Op, number: usize, given: Given, fault: Option<Fault>, state: &mut State)
    requires count { length given.outs ≡ kept_ports op.now.outs }
    requires room { HasRoom op.now number state.old }
    ensures { IsKept op.now.outs number given fault state.old state.new }
{
    let Given { outs, inputs } = given;
    state.inputs.set(number, inputs);
    if op.outs.is_empty() {
        state.faults.set(number, fault);
        state.sinks.set(number, only_list(outs));
    } else {
        place_lists(outs, op.outs.as_slice(), &mut state.streams);
    }
}
