//! What a loop goes over, and what is submitted.
ghost use Rattle.std.specs.Prelude.{◌≡◌, ℕ, None, Some, Ok, map, IfOk};
ghost use Rattle.spl_value.specs.declared.value.Value.{Value};
ghost use Rattle.spl_value.specs.declared.value.Value.TheViews.{out-Value};
ghost use Rattle.language_model.specs.Statements.{level_elements, level_tuple};
ghost use Rattle.language_model.specs.Outcomes.{Outcome, Done, followed, need};
ghost use Rattle.value_operations.specs.Answers.{Answers, Makes, held};

use crate::held::Held;
use crate::stop::Stop;
use spl_value::{Items, NoMemory, Pairs, Value, Values, copy_value, copy_values};
use std::alloc::{AllocError, Global};

/// The elements of a list, or the keys of a map.
pub fn elements(alloc: Global, of: Held<'_>) -> Result<Values, Stop>
    requires { level_elements (out-Value (held of)) ≡ None → ⊥ }
    ensures { Makes (level_elements (out-Value (held of.entry))) result }
{
    match of {
        Held::Own(value) => Ok(own_elements(alloc, value)?),
        Held::Lent(value) => Ok(copied_elements(alloc, value)?),
    }
}

fn own_elements(alloc: Global, value: Value) -> Result<Values, AllocError>
    requires { level_elements (out-Value value) ≡ None → ⊥ }
    ensures { IfOk result (λ vs. level_elements (out-Value value) ≡ Some vs) }
{
    if let Value::List(_) = &value {
        let Some(values) = value.into_list() else {
            unreachable!()
        };
        return Ok(values);
    }
    let Some(pairs) = value.into_map() else {
        unreachable!()
    };
    keys(alloc, pairs)
}

fn copied_elements(alloc: Global, value: &Value) -> Result<Values, NoMemory>
    requires { level_elements (out-Value value.now) ≡ None → ⊥ }
    ensures { IfOk result (λ vs. level_elements (out-Value value.now) ≡ Some vs) }
{
    match value {
        Value::List(values) => copy_values(alloc, values.as_slice()),
        Value::Map(pairs) => copied_keys(alloc, pairs),
        _ => unreachable!(),
    }
}

fn keys(alloc: Global, pairs: Pairs) -> Result<Values, AllocError>
    ensures { IfOk result (λ vs. vs ≡ map (λ p. p.0) pairs) }
{
    let mut keys = Items::with_capacity(alloc, pairs.len())?;
    'pairs: for pair in pairs.into_items()?.into_vec() {
        keys.push(key_of(pair))?;
    }
    Ok(keys)
}

fn key_of(pair: (Value, Value)) -> Value
    ensures { result ≡ pair.0 }
{
    pair.0
}

fn copied_keys(alloc: Global, pairs: &Pairs) -> Result<Values, NoMemory>
    ensures { IfOk result (λ vs. vs ≡ map (λ p. p.0) pairs.now) }
{
    let mut keys = Items::with_capacity(alloc, pairs.len())?;
    for pair in pairs {
        keys.push(copy_value(alloc, &pair.0)?)?;
    }
    Ok(keys)
}

/// The values of a tuple.
pub fn tuple_values(value: Value) -> Values
    requires { level_tuple (out-Value value) ≡ None → ⊥ }
    ensures { level_tuple (out-Value value) ≡ Some result }
{
    let Some(values) = value.into_tuple() else {
        unreachable!()
    };
    values
}

/// The values of a tuple, where an evaluation gave one.
pub fn values_of_tuple(tuple: Result<Value, Stop>) -> Result<Values, Stop>
    requires { (v : Value) → tuple ≡ Ok v → level_tuple (out-Value v) ≡ None → ⊥ }
    ensures { (outcome : Outcome Value) (turns : ℕ) → Answers outcome tuple turns
        → Answers (followed outcome (λ v left. need (level_tuple (out-Value v)) (λ vs. Done vs left))) result turns }
{
    match tuple {
        Ok(value) => Ok(tuple_values(value)),
        Err(stop) => Err(stop),
    }
}
