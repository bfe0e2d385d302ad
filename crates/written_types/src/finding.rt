//! The types that are meant by types as they are written.
ghost use Rattle.std.specs.Prelude.{◌≡◌, ◌+◌, ◌++◌, ◌∷◌, [], IfOk, Ok, OnOk};
ghost use Rattle.language_model.specs.TypeNames.{type_meant, shape_meant, attributes_type, types_of, written_attributes};
ghost use Rattle.language_model.specs.Typing.{unknown};
ghost use Rattle.language_model.specs.Finds.{Finds};
ghost use Rattle.written_types.specs.TypeScopes.{types_in};
ghost use Rattle.written_types.specs.steps.TypeScopes.{NameMeans};

use crate::refusals::{left_out, unknown};
use crate::table::TypeTable;
use language_model::TypeAnswer;
use spl_tree::{Attribute, MOST_HEIGHT, Shape, ShapeKind, TypeDefinition, TypeExpr, TypeKind};
use spl_value::{Boxed, Items, Name, Named, NoMemory, Schema, SplType};
use std::alloc::{AllocError, Global};

/// A type has no more parts than this: a few definitions, each of which names another one twice, may need
/// more memory than there is.
const MOST_PARTS: u32 = 1_000_000;

/// Where types are written: in a composite, whose own definitions come before those of the unit
/// outside, or in the unit alone.
#[derive(Clone, Copy)]
pub struct TypeScope<'t, 'u> {
    pub own: &'t TypeTable<'u>,
    pub outside: Option<&'t TypeTable<'u>>,
}

impl<'t, 'u> TypeScope<'t, 'u> {
    /// In the unit alone, whose types these are.
    pub fn of_unit(unit: &'t TypeTable<'u>) -> TypeScope<'t, 'u>
        ensures { types_in result ≡ types_of unit.now unknown }
    {
        TypeScope {
            own: unit,
            outside: None,
        }
    }

    /// In a composite, whose own types come before those of the unit.
    pub fn of_composite(own: &'t TypeTable<'u>, unit: &'t TypeTable<'u>) -> TypeScope<'t, 'u>
        ensures { types_in result ≡ types_of own.now (types_of unit.now unknown) }
    {
        TypeScope {
            own,
            outside: Some(unit),
        }
    }
}

/// The definition of a name, and where it is written. None where the name has no
/// definition, or one that leads back to itself.
fn meaning<'t, 'u>(
    scope: &TypeScope<'t, 'u>,
    name: &[u8],
) -> Option<(TypeScope<'t, 'u>, &'u TypeDefinition)>
    ensures { NameMeans (types_in scope.now) name.now result }
{
    if let Some((definition, circular)) = scope.own.definition(name) {
        return if circular {
            None
        } else {
            Some((*scope, definition))
        };
    }
    let own = scope.outside?;
    let (definition, circular) = own.definition(name)?;
    if circular {
        return None;
    }
    let unit = TypeScope::of_unit(own);
    Some((unit, definition))
}

/// One part more, and the levels that are left inside it.
fn enter(levels: u32, parts: &mut u32) -> Result<u32, NoMemory>
    ensures level { IfOk result (λ inside. levels ≡ inside + 1) }
    ensures part { OnOk result (parts.old ≡ parts.new + 1) }
{
    let (Some(inside), Some(left)) = (levels.checked_sub(1), parts.checked_sub(1)) else {
        return Err(NoMemory);
    };
    *parts = left;
    Ok(inside)
}

fn in_box(alloc: Global, kind: SplType) -> Result<Boxed<SplType>, TypeAnswer>
    ensures { Finds (Ok kind) result }
{
    Ok(Boxed::new(alloc, kind)?)
}

/// Adds an attribute.
fn push_attribute(schema: &mut Schema, name: Name, kind: Boxed<SplType>) -> Result<(), AllocError>
    ensures ok { OnOk result (schema.new ≡ schema.old ++ record { name = name; kind = kind } ∷ []) }
{
    schema.push(Named {
        name,
        kind: kind.into_inner(),
    })
}

/// The type that is written, as a part of one that may have `levels` more levels and `parts` more parts.
#[cycle(types)]
#[tactic(auto, using(language_model::proofs::TypeNameLaws::type_laws))]
fn type_at(
    alloc: Global,
    scope: &TypeScope,
    written: &TypeExpr,
    levels: u32,
    parts: &mut u32,
) -> Result<Boxed<SplType>, TypeAnswer>
    ensures { Finds (type_meant (types_in scope.now) written.now) result }
{
    let levels = enter(levels, parts)?;
    match written.what.get() {
        TypeKind::Boolean => in_box(alloc, SplType::Bool),
        TypeKind::Rstring => in_box(alloc, SplType::Text),
        TypeKind::Int(kind) => in_box(alloc, SplType::Int(*kind)),
        TypeKind::LeftOut(word) => left_out(alloc, written.at, *word),
        TypeKind::Name(name) => named(alloc, scope, written.at, name.as_slice(), levels, parts),
        TypeKind::List(element) => {
            let element = type_at(alloc, scope, element, levels, parts)?;
            in_box(alloc, SplType::List(element))
        }
        TypeKind::Map(key, value) => {
            let key = type_at(alloc, scope, key, levels, parts)?;
            let value = type_at(alloc, scope, value, levels, parts)?;
            in_box(alloc, SplType::Map(key, value))
        }
        TypeKind::Tuple(attributes) => {
            let schema = schema_at(alloc, scope, attributes.as_slice(), levels, parts)?;
            in_box(alloc, SplType::Tuple(schema))
        }
    }
}

#[cycle(types)]
fn schema_at(
    alloc: Global,
    scope: &TypeScope,
    attributes: &[Attribute<TypeExpr>],
    levels: u32,
    parts: &mut u32,
) -> Result<Schema, TypeAnswer>
    ensures { Finds (attributes_type (types_in scope.now) (written_attributes attributes.now)) result }
{
    let mut schema = Items::new(alloc);
    for attribute in attributes {
        let kind = type_at(alloc, scope, &attribute.kind, levels, parts)?;
        let name = Items::from_slice(alloc, attribute.name.what.as_slice())?;
        push_attribute(&mut schema, name, kind)?;
    }
    Ok(schema)
}

#[cycle(types)]
fn shape_at(
    alloc: Global,
    scope: &TypeScope,
    shape: &Shape,
    levels: u32,
    parts: &mut u32,
) -> Result<Boxed<SplType>, TypeAnswer>
    ensures { Finds (shape_meant (types_in scope.now) shape.now) result }
{
    match &shape.what {
        ShapeKind::Type(written) => type_at(alloc, scope, written, levels, parts),
        ShapeKind::Attributes(attributes) => {
            let schema = schema_at(alloc, scope, attributes.as_slice(), levels, parts)?;
            in_box(alloc, SplType::Tuple(schema))
        }
    }
}

/// The type that a name at a place means.
#[cycle(types)]
fn named(
    alloc: Global,
    scope: &TypeScope,
    at: u32,
    name: &[u8],
    levels: u32,
    parts: &mut u32,
) -> Result<Boxed<SplType>, TypeAnswer>
    ensures { Finds (types_in scope.now at name.now) result }
{
    match meaning(scope, name) {
        None => unknown(alloc, at, name),
        Some((scope, definition)) => shape_at(alloc, &scope, &definition.shape, levels, parts),
    }
}

/// The type that a written type means, in a box. Refusals are those of `type_of_written`.
pub fn type_boxed(
    alloc: Global,
    scope: &TypeScope,
    written: &TypeExpr,
) -> Result<Boxed<SplType>, TypeAnswer>
    ensures { Finds (type_meant (types_in scope.now) written.now) result }
{
    let mut parts = MOST_PARTS;
    type_at(alloc, scope, written, MOST_HEIGHT, &mut parts)
}

/// The type that a written type means.
///
/// `Refused` is the first refusal in the order of the text: of a name that has no definition, or one
/// that leads back to itself, or of the word of a type that is left out. It comes at the name or the
/// word, where that stands, also in a definition. `Memory` is also the answer for a type of more than a
/// million parts, or in which more than a thousand types and names stand inside one another.
pub fn type_of_written(
    alloc: Global,
    scope: &TypeScope,
    written: &TypeExpr,
) -> Result<SplType, TypeAnswer>
    ensures { Finds (type_meant (types_in scope.now) written.now) result }
{
    let kind = type_boxed(alloc, scope, written)?;
    Ok(kind.into_inner())
}

/// The type that a shape means. Refusals are those of `type_of_written`.
pub fn shape_of(alloc: Global, scope: &TypeScope, shape: &Shape) -> Result<SplType, TypeAnswer>
    ensures { Finds (shape_meant (types_in scope.now) shape.now) result }
{
    let mut parts = MOST_PARTS;
    let kind = shape_at(alloc, scope, shape, MOST_HEIGHT, &mut parts)?;
    Ok(kind.into_inner())
}

/// The attributes of a row, as the parameters of a function, each with its type. Refusals are those of
/// `type_of_written`, in turn.
pub fn attributes_of(
    alloc: Global,
    scope: &TypeScope,
    attributes: &[Attribute<TypeExpr>],
) -> Result<Schema, TypeAnswer>
    ensures { Finds (attributes_type (types_in scope.now) (written_attributes attributes.now)) result }
{
    let mut parts = MOST_PARTS;
    schema_at(alloc, scope, attributes, MOST_HEIGHT, &mut parts)
}
