//! What operators reply to items that are no tuples.
ghost use Rattle.std.specs.Prelude.{◌≡◌, List, length};
ghost use Rattle.spl_value.specs.declared.item.Item.TheVariants as I;
ghost use Rattle.spl_value.specs.declared.value.Value.{Value};
ghost use Rattle.stream_model.specs.Bodies.{Makes, by_item, on_first};
ghost use Rattle.stream_model.specs.React.{answer};
ghost use Rattle.port_reacts.specs.Bodies.{RepliesToItem};

use port_reacts::{CheckedOperator, given_first, given_none};
use spl_value::Item;
use std::alloc::Global;
use stream_model::Reply;

/// What an item that is no tuple causes, at an operator that passes window markers.
pub(crate) fn passed(alloc: Global, at: &CheckedOperator<'_>, item: Item) -> Reply
    requires { (values : List Value) → item ≡ I.Tuple values → ⊥ }
    ensures { (body : List Value → Makes) → RepliesToItem at.now.number (length at.now.op.now.outs)
        (answer (by_item body (on_first I.Window) item)) item result }
{
    match item {
        Item::Tuple(_) => unreachable!(),
        Item::Window => given_first(alloc, Item::Window),
        Item::Final => given_none(alloc),
        Item::Bad(fault) => at.ended_by(alloc, fault),
    }
}
