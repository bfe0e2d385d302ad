//! The values of a tuple at some places.
ghost use Rattle.std.specs.Prelude.{◌≡◌, ◌<◌, true, List, Some, IfOk, length, slice_get};
ghost use Rattle.spl_value.specs.declared.value.Value.{Value as V};
ghost use Rattle.stream_model.specs.Bodies.{values_at};

use spl_value::{Items, NoMemory, Value, Values, copy_value};
use std::alloc::Global;
use std::mem;

/// Whether the places are all those of a tuple of this many values, in their order.
pub(crate) fn are_all(places: &[u32], width: usize) -> bool
    ensures { result ≡ true → (vs : List V) → length vs ≡ width → values_at vs places.now ≡ Some vs }
{
    if places.len() != width {
        return false;
    }
    for (i, place) in places.iter().enumerate() {
        if *place as usize != i {
            return false;
        }
    }
    true
}

/// A copy of the value at a place.
fn copy_at(alloc: Global, values: &Values, place: usize) -> Result<Value, NoMemory>
    requires { place < length values.now }
    ensures { IfOk result (λ v. slice_get values.now place ≡ Some v) }
{
    match values.get(place) {
        Some(value) => copy_value(alloc, value),
        None => unreachable!(),
    }
}

/// Takes the value at a place. It is copied where the place comes again later.
fn take_value(
    alloc: Global,
    values: &mut Values,
    place: u32,
    behind: &[u32],
) -> Result<Value, NoMemory>
    requires { place < length values.old }
    ensures value { IfOk result (λ v. slice_get values.old place ≡ Some v) }
    ensures behind { IfOk result (λ _. values_at values.new behind.now ≡ values_at values.old behind.now) }
{
    if behind.contains(&place) {
        return copy_at(alloc, values, place as usize);
    }
    let value = values.item_mut(place as usize);
    Ok(mem::replace(value, Value::Bool(false)))
}

/// The values at the places, in the order of the places.
pub(crate) fn picked(alloc: Global, values: Values, places: &[u32]) -> Result<Values, NoMemory>
    requires { (us : List V) × (values_at values places.now ≡ Some us) }
    ensures { IfOk result (λ us. values_at values places.now ≡ Some us) }
{
    let mut left = values;
    let mut picked = Items::with_capacity(alloc, places.len())?;
    for (i, place) in places.iter().enumerate() {
        let value = take_value(alloc, &mut left, *place, &places[i + 1..])?;
        picked.push(value)?;
    }
    Ok(picked)
}
