//! A value and a type.
ghost use Rattle.std.specs.Prelude.{◌≡◌, ◌&&◌};
ghost use Rattle.std.specs.List.{list_all};
ghost use Rattle.spl_value.specs.Numbered.{item_fits as item_fits_as};
ghost use Rattle.spl_value.specs.Values.{fits, tuple_fits as tuple_fits_as};

use crate::rising::keys_rise;
use spl_value::{Attribute, Item, Pairs, SplType, Value, is_of_kind};

/// Whether a value belongs to a type.
#[cycle(fits)]
fn value_fits(kind: &SplType, value: &Value) -> bool
    ensures { result ≡ fits kind.now value.now }
{
    match kind {
        SplType::Int(kind) => match value {
            Value::Int(number) => is_of_kind(*kind, *number),
            _ => false,
        },
        SplType::Bool => match value {
            Value::Bool(_) => true,
            _ => false,
        },
        SplType::Text => match value {
            Value::Text(_) => true,
            _ => false,
        },
        SplType::List(kind) => match value {
            Value::List(values) => all_fit(kind.get(), values.as_slice()),
            _ => false,
        },
        SplType::Map(key, kind) => match value {
            Value::Map(pairs) => {
                if !keys_rise(pairs) {
                    return false;
                }
                if !keys_fit(key.get(), pairs) {
                    return false;
                }
                held_fit(kind.get(), pairs)
            }
            _ => false,
        },
        SplType::Tuple(schema) => match value {
            Value::Tuple(values) => tuple_fits(schema.as_slice(), values.as_slice()),
            _ => false,
        },
    }
}

#[cycle(fits)]
fn all_fit(kind: &SplType, values: &[Value]) -> bool
    ensures { result ≡ list_all (fits kind.now) values.now }
{
    for value in values {
        if !value_fits(kind, value) {
            return false;
        }
    }
    true
}

#[cycle(fits)]
fn keys_fit(kind: &SplType, pairs: &Pairs) -> bool
    ensures { result ≡ list_all (λ p. fits kind.now p.0) pairs.now }
{
    for pair in pairs {
        if !value_fits(kind, &pair.0) {
            return false;
        }
    }
    true
}

#[cycle(fits)]
fn held_fit(kind: &SplType, pairs: &Pairs) -> bool
    ensures { result ≡ list_all (λ p. fits kind.now p.1) pairs.now }
{
    for pair in pairs {
        if !value_fits(kind, &pair.1) {
            return false;
        }
    }
    true
}

/// Whether a tuple has a value of each attribute's type, in their order.
#[cycle(fits)]
pub fn tuple_fits(schema: &[Attribute], values: &[Value]) -> bool
    ensures { result ≡ tuple_fits_as schema.now values.now }
{
    let mut at = 0;
    for value in values {
        let Some(attribute) = schema.get(at) else {
            return false;
        };
        if !value_fits(&attribute.kind, value) {
            return false;
        }
        at += 1;
    }
    at == schema.len()
}

/// Whether a tuple in an item has these attributes; another item has none.
pub fn item_fits(schema: &[Attribute], item: &Item) -> bool
    ensures { result ≡ item_fits_as schema.now item.now }
{
    match item {
        Item::Tuple(values) => tuple_fits(schema, values.as_slice()),
        Item::Window => true,
        Item::Final => true,
        Item::Bad(_) => true,
    }
}
