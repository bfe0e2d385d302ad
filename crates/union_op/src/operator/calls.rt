//! The calls of a Union.
ghost use Rattle.std.specs.Prelude.{◌≡◌, ◌<◌, ℕ, [], List, Some, IfOk, length, slice_get};
ghost use Rattle.spl_value.specs.declared.item.Item.TheVariants as I;
ghost use Rattle.spl_value.specs.declared.value.Value.{Value};
ghost use Rattle.language_model.specs.declared.checked.CheckedClauses.TheVariants as A;
ghost use Rattle.stream_model.specs.Bodies.{on_first, union_body, values_at};
ghost use Rattle.stream_model.specs.CheckedMeaning.{graph_of, operator_with};
ghost use Rattle.stream_model.specs.React.{answer};
ghost use Rattle.port_reacts.specs.Bodies.{GoesOn, RepliesToItem};
ghost use Rattle.union_op.specs.Places.{PlacesThere};

use crate::operator::Union;
use crate::picking::{are_all, picked};
use language_model::{Checked, CheckedClauses};
use port_reacts::{CheckedOperator, OnPort, fits_law, given_first, given_none};
use spl_value::{Item, Items, NoMemory, Places, Values};
use std::alloc::Global;
use stream_model::Reply;

/// Gives the values of a tuple at the places of its port.
fn on_tuple(alloc: Global, places: &Places, values: Values) -> Reply
    requires there { (us : List Value) × (values_at values places.now ≡ Some us) }
    ensures { (us : List Value) → values_at values places.now ≡ Some us → GoesOn (on_first (I.Tuple us)) result }
{
    if are_all(places.as_slice(), values.len()) {
        return given_first(alloc, Item::Tuple(values));
    }
    match picked(alloc, values, places.as_slice()) {
        Ok(picked) => given_first(alloc, Item::Tuple(picked)),
        Err(_) => Reply::Memory,
    }
}

/// What an item on a port causes.
fn on_item(
    alloc: Global,
    at: &CheckedOperator<'_>,
    places: &Items<Places>,
    port: u32,
    item: Item,
) -> Reply
    requires there { PlacesThere places.now port item }
    ensures { RepliesToItem at.now.number (length at.now.op.now.outs) (answer (union_body places.now port item)) item result }
{
    match item {
        Item::Tuple(values) => match places.get(port as usize) {
            Some(places) => on_tuple(alloc, places, values),
            None => unreachable!(),
        },
        Item::Window | Item::Final => given_none(alloc),
        Item::Bad(fault) => at.ended_by(alloc, fault),
    }
}

impl<'c> OnPort for Union<'c> {
    ghost spec = { λ s. operator_with s.at.checked.now s.at.number s.at.op.now s.at.part.now };

    ghost stands = { λ s h. s.at.part.now ≡ A.Union s.places.now };

    fn on_port(&mut self, port: u32, item: Item) -> Reply {
        fits_law();
        on_item(self.alloc, &self.at, self.places, port, item)
    }
}

impl<'c> Union<'c> {
    /// The Union with this number. There is one.
    pub fn new(alloc: Global, checked: &'c Checked, op: u32) -> Result<Union<'c>, NoMemory>
        requires there { op < length checked.now.graph.ops }
        requires kind { (places : List (List ℕ)) × (slice_get checked.now.parts op ≡ Some (A.Union places)) }
        ensures is { IfOk result (λ union. slice_get (graph_of checked.now).ops op ≡ Some (⟦<Union<'c> as OnPort>⟧.spec union)) }
        ensures begins { IfOk result (λ union. ⟦<Union<'c> as OnPort>⟧.stands union []) }
    {
        let at = CheckedOperator::new(checked, op);
        let CheckedClauses::Union { places } = at.part else {
            unreachable!()
        };
        Ok(Union { alloc, at, places })
    }
}
