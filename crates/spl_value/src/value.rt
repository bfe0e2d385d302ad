ghost use Rattle.std.specs.Prelude.{◌≡◌, ◌≢◌, ℕ, List, IfOk, MatchOption};

use crate::{Bytes, Items, NoMemory, Reserved, SegmentedList};
use std::alloc::Global;

/// A value of the language. An integer stands as its number, whatever its kind.
#[derive(PartialEq, Eq, PartialOrd, Ord, Hash)]
pub enum Value {
    Int(i128),
    Bool(bool),
    Text(Bytes),
    List(Values),
    Map(Pairs),
    Tuple(Values),
}

impl Drop for Value {
    fn drop(self) {
        match self {
            Value::Int(_) => {}
            Value::Bool(_) => {}
            Value::Text(_) => {}
            Value::List(_) => {}
            Value::Map(_) => {}
            Value::Tuple(_) => {}
        }
    }
}

impl Value {
    ghost use Rattle.spl_value.specs.declared.value.Value.{Value};
    ghost use Rattle.spl_value.specs.declared.value.Value.TheVariants as V;

    /// The bytes of a text; nothing else has any.
    pub fn into_text(self) -> Option<Bytes>
        ensures { MatchOption result ((bytes : List ℕ) → self ≢ V.Text bytes) (λ bytes. self ≡ V.Text bytes) }
    {
        match self {
            Value::Text(bytes) => Some(bytes),
            _ => None,
        }
    }

    /// The elements of a list; nothing else has any.
    pub fn into_list(self) -> Option<Values>
        ensures { MatchOption result ((values : List Value) → self ≢ V.List values) (λ values. self ≡ V.List values) }
    {
        match self {
            Value::List(values) => Some(values),
            _ => None,
        }
    }

    /// The pairs of a map; nothing else has any.
    pub fn into_map(self) -> Option<Pairs>
        ensures { MatchOption result ((pairs : List (Value × Value)) → self ≢ V.Map pairs) (λ pairs. self ≡ V.Map pairs) }
    {
        match self {
            Value::Map(pairs) => Some(pairs),
            _ => None,
        }
    }

    /// The attributes' values of a tuple; nothing else has any.
    pub fn into_tuple(self) -> Option<Values>
        ensures { MatchOption result ((values : List Value) → self ≢ V.Tuple values) (λ values. self ≡ V.Tuple values) }
    {
        match self {
            Value::Tuple(values) => Some(values),
            _ => None,
        }
    }
}

/// The elements of a list, or the attributes' values of a tuple, in their order.
pub type Values = Items<Value>;

/// The pairs of a map: key and value. In a value that fits its type they stand by ascending key, with
/// distinct keys; the calls on pairs want that and keep it.
pub type Pairs = SegmentedList<(Value, Value)>;

/// A copy of a value.
#[cycle(copy)]
pub fn copy_value(alloc: Global, v: &Value) -> Result<Value, NoMemory>
    ensures { IfOk result (λ w. w ≡ v.now) }
{
    match v {
        Value::Int(n) => Ok(Value::Int(*n)),
        Value::Bool(b) => Ok(Value::Bool(*b)),
        Value::Text(bytes) => {
            let copied = Items::from_slice(alloc, bytes.as_slice())?;
            Ok(Value::Text(copied))
        }
        Value::List(values) => Ok(Value::List(copy_values(alloc, values.as_slice())?)),
        Value::Map(pairs) => Ok(Value::Map(copy_pairs(alloc, pairs)?)),
        Value::Tuple(values) => Ok(Value::Tuple(copy_values(alloc, values.as_slice())?)),
    }
}

/// Copies of values, in their order.
#[cycle(copy)]
pub fn copy_values(alloc: Global, values: &[Value]) -> Result<Values, NoMemory>
    ensures { IfOk result (λ ws. ws ≡ values.now) }
{
    let mut copied = Reserved::with_capacity(alloc, values.len())?;
    for value in values {
        copied.push(copy_value(alloc, value)?);
    }
    Ok(copied.into_items())
}

#[cycle(copy)]
fn copy_pairs(alloc: Global, pairs: &Pairs) -> Result<Pairs, NoMemory>
    ensures { IfOk result (λ ws. ws ≡ pairs.now) }
{
    let mut copied = SegmentedList::with_capacity(alloc, pairs.len())?;
    for pair in pairs {
        let key = copy_value(alloc, &pair.0)?;
        let held = copy_value(alloc, &pair.1)?;
        copied.push((key, held))?;
    }
    Ok(copied)
}
