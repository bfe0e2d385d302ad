//! Attributes by whose values tuples are told apart.
ghost use Rattle.std.specs.Prelude.{◌≡◌, ◌==◌, [], reverse};
ghost use Rattle.std.specs.List.{list_any};
ghost use Rattle.spl_value.specs.declared.types.SplType.TheViews.{out-SplType};
ghost use Rattle.language_model.specs.ParameterTyping.{key_of, keys_typing};
ghost use Rattle.language_model.specs.parts.ParameterTyping.{first_schema, level_key, some_keys, word_of};
ghost use Rattle.language_model.specs.Finds.{Finds};

use super::values::word_of;
use language_model::{Port, TypeAnswer, attribute_named, mismatch, narrow, unknown};
use spl_tree::Expr;
use spl_value::{Attribute, Items, Places, SplType};
use std::alloc::Global;

/// The attributes of the first port.
pub(super) fn first_schema(ports: &[Port]) -> &[Attribute]
    ensures { result.now ≡ first_schema ports.now }
{
    match ports.first() {
        Some(port) => port.schema.as_slice(),
        None => &[],
    }
}

/// The places of one attribute or more. Without any the parameter is refused at its name, which is at
/// `at`.
pub(super) fn some_keys(
    alloc: Global,
    at: u32,
    schema: &[Attribute],
    values: &[Expr],
) -> Result<Places, TypeAnswer>
    ensures { Finds (some_keys at schema.now values.now) result }
{
    match values {
        [] => Err(mismatch(at)),
        [_, ..] => keys_typing(alloc, schema, values),
    }
}

/// The places of attributes that are named, each once.
fn keys_typing(alloc: Global, schema: &[Attribute], values: &[Expr]) -> Result<Places, TypeAnswer>
    ensures { Finds (keys_typing schema.now [] values.now) result }
{
    let mut places = Items::new(alloc);
    for value in values {
        let next = key_of(alloc, schema, places.as_slice(), value)?;
        places.push(next)?;
    }
    Ok(places)
}

/// The place of an attribute after others.
fn key_of(
    alloc: Global,
    schema: &[Attribute],
    before: &[u32],
    value: &Expr,
) -> Result<u32, TypeAnswer>
    ensures { Finds (key_of schema.now (reverse before.now) value.now.at (word_of value.now)) result }
{
    let Some(name) = word_of(value) else {
        return Err(mismatch(value.at));
    };
    let Some((place, found)) = attribute_named(schema, name) else {
        return Err(unknown(alloc, value.at, name));
    };
    if !is_key(&found.kind) {
        return Err(mismatch(value.at));
    }
    let place = narrow(place)?;
    if is_among(before, place) {
        Err(mismatch(value.at))
    } else {
        Ok(place)
    }
}

/// Whether tuples are told apart by values of a type.
fn is_key(kind: &SplType) -> bool
    ensures { result ≡ level_key (out-SplType kind.now) }
{
    matches!(kind, SplType::Int(_) | SplType::Bool | SplType::Text)
}

fn is_among(places: &[u32], place: u32) -> bool
    ensures { result ≡ list_any (λ n. n == place) (reverse places.now) }
{
    places.contains(&place)
}
