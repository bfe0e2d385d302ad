//! Types that the parts of a literal or an index want.
ghost use Rattle.std.specs.Prelude.{◌≡◌, not, is_some};
ghost use Rattle.std.specs.List.{list_all};
ghost use Rattle.std.specs.Str.{bytes_eq};
ghost use Rattle.language_model.specs.Scopes.{at_place, attribute_of};
ghost use Rattle.std.specs.Option.{option_copied};
ghost use Rattle.spl_value.specs.declared.types.SplType.TheViews.{out-SplType};
ghost use Rattle.language_model.specs.Typing.{level_element, level_pair, level_schema, level_index, gives_each, are_distinct};
ghost use Rattle.language_model.specs.parts.Typing.{wants_list, wants_map, wants_tuple};
ghost use Rattle.language_model.specs.Finds.{Finds, FindsBy};
ghost use Rattle.name_rules.specs.Wanted.{if_wanted, schema_for, index_for};
ghost use Rattle.name_rules.specs.steps.Wanted.{this_or_other, pair_copied};
ghost use Rattle.name_rules.specs.LiteralAnswers.{field_for};
ghost use Rattle.language_model.specs.TypingLaws.{field_part, field_parts};

use code_copies::boxed_copy;
use language_model::{TypeAnswer, Typed, attribute_named, mismatch, narrow};
use spl_tree::{Code, Expr, Field, Slot};
use spl_value::{Attribute, Boxed, Schema, SplType};
use std::alloc::Global;

/// The type of a list's elements.
fn element_of(kind: &SplType) -> Option<&SplType>
    ensures { this_or_other (option_copied result) ≡ level_element (out-SplType kind.now) }
{
    match kind {
        SplType::List(element) => Some(element.get()),
        SplType::Int(_) | SplType::Bool | SplType::Text | SplType::Map(_, _) | SplType::Tuple(_) =>
            None,
    }
}

/// The types of a map's keys and values.
fn pair_of(kind: &SplType) -> Option<(&SplType, &SplType)>
    ensures { this_or_other (pair_copied result) ≡ level_pair (out-SplType kind.now) }
{
    match kind {
        SplType::Map(key, value) => Some((key.get(), value.get())),
        SplType::Int(_) | SplType::Bool | SplType::Text | SplType::List(_) | SplType::Tuple(_) =>
            None,
    }
}

/// The attributes of a tuple.
pub(crate) fn schema_of(kind: &SplType) -> Option<&Schema>
    ensures { this_or_other (option_copied result) ≡ level_schema (out-SplType kind.now) }
{
    match kind {
        SplType::Tuple(schema) => Some(schema),
        SplType::Int(_) | SplType::Bool | SplType::Text | SplType::List(_) | SplType::Map(_, _) =>
            None,
    }
}

/// The type that is wanted of a list's elements, where one is. The list stands at that place.
pub fn element_wanted(
    alloc: Global,
    at: u32,
    wanted: Option<&SplType>,
) -> Result<Option<Boxed<SplType>>, TypeAnswer>
    ensures { Finds (if_wanted at (wants_list (option_copied wanted.entry))) result }
{
    let Some(kind) = wanted else {
        return Ok(None);
    };
    match element_of(kind) {
        Some(element) => Ok(Some(boxed_copy(alloc, element)?)),
        None => Err(mismatch(at)),
    }
}

/// The types that are wanted of a map's keys and values, where they are. The map stands at that place.
pub fn pair_wanted(
    alloc: Global,
    at: u32,
    wanted: Option<&SplType>,
) -> Result<Option<(Boxed<SplType>, Boxed<SplType>)>, TypeAnswer>
    ensures { Finds (if_wanted at (wants_map (option_copied wanted.entry))) result }
{
    let Some(kind) = wanted else {
        return Ok(None);
    };
    match pair_of(kind) {
        Some((key, value)) => {
            let key = boxed_copy(alloc, key)?;
            Ok(Some((key, boxed_copy(alloc, value)?)))
        }
        None => Err(mismatch(at)),
    }
}

/// The attributes that are wanted of a tuple at a place, where they are. Its fields have to be these, or
/// else of different names.
pub fn schema_wanted<'t>(
    at: u32,
    wanted: Option<&'t SplType>,
    fields: &[Field<Expr>],
) -> Result<Option<&'t Schema>, TypeAnswer>
    ensures { FindsBy option_copied (schema_for at (wants_tuple (option_copied wanted.entry)) (field_parts fields.now)) result }
{
    let Some(kind) = wanted else {
        return if are_distinct(fields) {
            Ok(None)
        } else {
            Err(mismatch(at))
        };
    };
    match schema_of(kind) {
        Some(schema) if gives_each(schema.as_slice(), fields) => Ok(Some(schema)),
        _ => Err(mismatch(at)),
    }
}

/// The place of a field's attribute, and the type that is wanted of it where one is. Without attributes
/// that are wanted the place is that of the field in its row.
pub fn field_wanted<'t>(
    schema: Option<&'t Schema>,
    place: usize,
    field: &Field<Expr>,
) -> Result<(u32, Option<&'t SplType>), TypeAnswer>
    ensures { FindsBy (λ p. at_place p.0 (option_copied p.1)) (field_for (option_copied schema.entry) place (field_part field.now)) result }
{
    let Some(schema) = schema else {
        return Ok((narrow(place)?, None));
    };
    match attribute_named(schema.as_slice(), field.name.what.as_slice()) {
        Some((place, found)) => Ok((narrow(place)?, Some(&found.kind))),
        None => Err(mismatch(field.value.at)),
    }
}

/// The type that is wanted of an index into a value whose expression begins at `base`, where one is.
pub fn index_wanted(base: u32, kind: &SplType) -> Result<Option<&SplType>, TypeAnswer>
    ensures { FindsBy option_copied (index_for base (out-SplType kind.now)) result }
{
    match kind {
        SplType::List(_) => Ok(None),
        SplType::Map(key, _) => Ok(Some(key.get())),
        SplType::Int(_) | SplType::Bool | SplType::Text | SplType::Tuple(_) => Err(mismatch(base)),
    }
}

/// The code of an index at its place: it has to be an integer, of any type.
pub(crate) fn index_typed(at: u32, index: Typed) -> Result<Boxed<Code<Slot>>, TypeAnswer>
    ensures { Finds (level_index at index.code (out-SplType index.kind)) result }
{
    match index.kind.get() {
        SplType::Int(_) => Ok(index.code),
        SplType::Bool | SplType::Text | SplType::List(_) | SplType::Map(_, _) | SplType::Tuple(_) =>
            { Err(mismatch(at)) }
    }
}

/// Whether no field has the name.
fn is_free(fields: &[Field<Expr>], name: &[u8]) -> bool
    ensures { result ≡ list_all (λ f. not (bytes_eq f.name.what name.now)) (field_parts fields.now) }
{
    for field in fields {
        if field.name.what.as_slice() == name {
            return false;
        }
    }
    true
}

/// Whether no two fields have one name.
fn are_distinct(fields: &[Field<Expr>]) -> bool
    ensures { result ≡ are_distinct (field_parts fields.now) }
{
    for (at, field) in fields.iter().enumerate() {
        if !is_free(&fields[at + 1..], field.name.what.as_slice()) {
            return false;
        }
    }
    true
}

/// Whether each field is an attribute.
fn are_known(schema: &[Attribute], fields: &[Field<Expr>]) -> bool
    ensures { result ≡ list_all (λ f. is_some (attribute_of schema.now f.name.what)) (field_parts fields.now) }
{
    for field in fields {
        if let None = attribute_named(schema, field.name.what.as_slice()) {
            return false;
        }
    }
    true
}

/// Whether each attribute has one field, and no other has.
fn gives_each(schema: &[Attribute], fields: &[Field<Expr>]) -> bool
    ensures { result ≡ gives_each schema.now (field_parts fields.now) }
{
    are_distinct(fields) && are_known(schema, fields) && fields.len() == schema.len()
}
