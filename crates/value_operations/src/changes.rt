//! Changes within values, where they stand.
ghost use Rattle.std.specs.Prelude.{◌≡◌, ◌∷◌, [], Err, IsTrue, None, Some};
ghost use Rattle.spl_value.specs.declared.value.Value.TheVariants as V;
ghost use Rattle.spl_value.specs.Calls.{FitsCollection, Gives};
ghost use Rattle.spl_value.specs.Pairs.{are_pairs, pairs_put};
ghost use Rattle.language_model.specs.Changes.{changed, change_of, passed_on};
ghost use Rattle.spl_tree.specs.declared.body.Change.TheVariants as H;
ghost use Rattle.spl_tree.specs.declared.code.Selector.TheVariants as K;
ghost use Rattle.value_operations.specs.Changing.{CanChange, Changes};
ghost use Rattle.value_operations.specs.steps.Places.{IsIndex, IsPlaceIn};

use crate::stop::Stop;
use spl_tree::{Change, Selector};
use spl_value::{FaultKind, Pairs, Value, copy_value};
use std::alloc::Global;

/// Changes what the steps, of which there may be `room`, take of a value in turn.
#[cycle(change)]
pub fn change_at(
    alloc: Global,
    room: u32,
    value: &mut Value,
    steps: &[Selector<Value>],
    change: Change<Value>,
) -> Result<(), Stop>
    requires { CanChange steps.now change value.old }
    ensures { Changes (changed steps.now (change_of change) (Some value.old)) result value.new }
{
    let Some(room) = room.checked_sub(1) else {
        return refused(change, Stop::Memory);
    };
    match steps {
        [] => make(value, change),
        [step, rest @ ..] => match step {
            Selector::Member(place) => change_member(alloc, room, value, *place, rest, change),
            Selector::Element(index) => change_element(alloc, room, value, index, rest, change),
            Selector::AtKey(key) => {
                let Value::Map(pairs) = value else {
                    unreachable!()
                };
                change_at_key(alloc, room, pairs, key, rest, change)
            }
        },
    }
}

/// Changes what the steps take of a tuple's attribute.
#[cycle(change)]
fn change_member(
    alloc: Global,
    room: u32,
    tuple: &mut Value,
    place: u32,
    steps: &[Selector<Value>],
    change: Change<Value>,
) -> Result<(), Stop>
    requires { CanChange (K.Member place ∷ steps.now) change tuple.old }
    ensures { Changes (changed (K.Member place ∷ steps.now) (change_of change) (Some tuple.old)) result tuple.new }
{
    let Value::Tuple(values) = tuple else {
        unreachable!()
    };
    change_at(alloc, room, values.item_mut(place as usize), steps, change)
}

/// Changes what the steps take of a list's element.
#[cycle(change)]
fn change_element(
    alloc: Global,
    room: u32,
    list: &mut Value,
    index: &Value,
    steps: &[Selector<Value>],
    change: Change<Value>,
) -> Result<(), Stop>
    requires { CanChange (K.Element index.now ∷ steps.now) change list.old }
    ensures { Changes (changed (K.Element index.now ∷ steps.now) (change_of change) (Some list.old)) result list.new }
{
    let Value::List(values) = list else {
        unreachable!()
    };
    match place_in(values.len(), index) {
        Some(at) => change_at(alloc, room, values.item_mut(at), steps, change),
        None => refused(change, Stop::Fault(FaultKind::Index)),
    }
}

/// Changes what the steps take of the value of a map at a key. An assignment may add the key.
#[cycle(change)]
fn change_at_key(
    alloc: Global,
    room: u32,
    pairs: &mut Pairs,
    key: &Value,
    steps: &[Selector<Value>],
    change: Change<Value>,
) -> Result<(), Stop>
    requires { CanChange (K.AtKey key.now ∷ steps.now) change (V.Map pairs.old) }
    ensures { Changes (changed (K.AtKey key.now ∷ steps.now) (change_of change) (Some (V.Map pairs.old))) result (V.Map pairs.new) }
{
    if let Some(value) = pairs.find_mut(key) {
        return change_at(alloc, room, value, steps, change);
    }
    if steps.is_empty() {
        add(alloc, pairs, key, change)
    } else {
        refused(change, Stop::Fault(FaultKind::NoKey))
    }
}

/// Drops a change that can't be made.
fn refused<T: Drop>(_: T, stop: Stop) -> Result<(), Stop>
    ensures { result ≡ Err stop }
{
    Err(stop)
}

/// Adds to a map, at a key that it doesn't have, what a change makes of nothing.
fn add(alloc: Global, pairs: &mut Pairs, key: &Value, change: Change<Value>) -> Result<(), Stop>
    requires { IsTrue (are_pairs pairs.old) }
    ensures { Changes (passed_on (change_of change None) (λ new. Gives (V.Map (pairs_put pairs.old key.now new)))) result (V.Map pairs.new) }
{
    match change {
        Change::Put(value) => put(alloc, pairs, key, value),
        Change::Append(_) | Change::Remove(_) | Change::Clear => Err(Stop::Fault(FaultKind::NoKey)),
    }
}

/// Adds a value to a map at a key, or puts it in place of the one that is there.
fn put(alloc: Global, pairs: &mut Pairs, key: &Value, value: Value) -> Result<(), Stop>
    requires { IsTrue (are_pairs pairs.old) }
    ensures { Changes (Gives (V.Map (pairs_put pairs.old key.now value))) result (V.Map pairs.new) }
{
    pairs.put(copy_value(alloc, key)?, value)?;
    Ok(())
}

/// The place of an index in a list of that length.
fn place_in(length: usize, index: &Value) -> Option<usize>
    requires { IsIndex index.now }
    ensures { IsPlaceIn length index.now result }
{
    let Value::Int(index) = index else {
        unreachable!()
    };
    let Ok(at) = usize::try_from(*index) else {
        return None;
    };
    if at < length { Some(at) } else { None }
}

/// Makes of a value what a change makes of it.
fn make(value: &mut Value, change: Change<Value>) -> Result<(), Stop>
    requires { CanChange [] change value.old }
    ensures { Changes (change_of change (Some value.old)) result value.new }
{
    match change {
        Change::Put(new) => *value = new,
        Change::Append(new) => return append(value, new),
        Change::Remove(key) => remove(value, key),
        Change::Clear => clear(value),
    }
    Ok(())
}

/// Adds an element after those of a list.
fn append(list: &mut Value, new: Value) -> Result<(), Stop>
    requires { CanChange [] (H.Append new) list.old }
    ensures { Changes (change_of (H.Append new) (Some list.old)) result list.new }
{
    let Value::List(values) = list else {
        unreachable!()
    };
    values.push(new)?;
    Ok(())
}

/// Takes out of a map what stands at a key.
fn remove(map: &mut Value, key: Value)
    requires { CanChange [] (H.Remove key) map.old }
    ensures { change_of (H.Remove key) (Some map.old) ≡ Gives map.new }
{
    let Value::Map(pairs) = map else {
        unreachable!()
    };
    pairs.remove_key(&key);
}

/// Takes everything out of a list or a map.
fn clear(value: &mut Value)
    requires { FitsCollection value.old }
    ensures { change_of H.Clear (Some value.old) ≡ Gives value.new }
{
    match value {
        Value::List(values) => values.clear(),
        Value::Map(pairs) => pairs.clear(),
        _ => unreachable!(),
    }
}
