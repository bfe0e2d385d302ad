//! Calls on lists and maps.
ghost use Rattle.spl_value.specs.Calls.{Exactly, Answers, FitsCollection, FitMapAndKey, FitListAndElement, size_of, has_key, append_of, remove_of, clear_of};

use crate::integers::counted;
use spl_value::{Evaluated, Value};

/// `size`: the number of elements of a list or of pairs of a map, wrapped to an int32.
pub fn size(of: &Value) -> Evaluated
    requires { FitsCollection of.now }
    ensures { Exactly result (size_of of.now) }
{
    let count = match of {
        Value::List(values) => values.len(),
        Value::Map(pairs) => pairs.len(),
        _ => unreachable!(),
    };
    Evaluated::Value(counted(count))
}

/// `has`: whether a map has a value at a key.
pub fn has(map: &Value, key: &Value) -> Evaluated
    requires { FitMapAndKey map.now key.now }
    ensures { Exactly result (has_key map.now key.now) }
{
    let Value::Map(pairs) = map else {
        unreachable!()
    };
    Evaluated::Value(Value::Bool(pairs.contains_key(key)))
}

/// `appendM`: the list with the value at its end. `Memory` where there is no room for it.
pub fn append_m(list: Value, value: Value) -> Evaluated
    requires { FitListAndElement list value }
    ensures { Answers result (append_of list value) }
{
    let Some(mut values) = list.into_list() else {
        unreachable!()
    };
    match values.push(value) {
        Ok(()) => Evaluated::Value(Value::List(values)),
        Err(_) => Evaluated::Memory,
    }
}

/// `removeM`: the map without the key, which is the map itself where it doesn't have the key.
pub fn remove_m(map: Value, key: &Value) -> Evaluated
    requires { FitMapAndKey map key.now }
    ensures { Exactly result (remove_of map key.now) }
{
    let Some(mut pairs) = map.into_map() else {
        unreachable!()
    };
    pairs.remove_key(key);
    Evaluated::Value(Value::Map(pairs))
}

/// `clearM`: the list or the map with nothing in it.
pub fn clear_m(mut of: Value) -> Evaluated
    requires { FitsCollection of }
    ensures { Exactly result (clear_of of) }
{
    match &mut of {
        Value::List(values) => values.clear(),
        Value::Map(pairs) => pairs.clear(),
        _ => unreachable!(),
    }
    Evaluated::Value(of)
}
