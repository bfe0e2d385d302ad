//! Keys of tuples.
ghost use Rattle.std.specs.Prelude.{◌≡◌, ◌++◌, IfOk, slice_get};
ghost use Rattle.std.specs.Option.{option_to_list};
ghost use Rattle.spl_value.specs.Key.{key_of as key_by};

use spl_value::{Items, NoMemory, Places, Values, copy_value};
use std::alloc::Global;

/// Adds a copy of the value at a place, where there is one.
fn push_at(alloc: Global, key: &mut Values, tuple: &Values, place: usize) -> Result<(), NoMemory>
    ensures { IfOk result (λ _. key.new ≡ key.old ++ option_to_list (slice_get tuple.now place)) }
{
    if let Some(value) = tuple.get(place) {
        key.push(copy_value(alloc, value)?)?;
    }
    Ok(())
}

/// The values of a tuple at the places, in the order of the places.
pub fn key_of(alloc: Global, tuple: &Values, places: &Places) -> Result<Values, NoMemory>
    ensures { IfOk result (λ key. key ≡ key_by tuple.now places.now) }
{
    let mut key = Items::with_capacity(alloc, places.len())?;
    for place in places.as_slice() {
        push_at(alloc, &mut key, tuple, *place as usize)?;
    }
    Ok(key)
}
