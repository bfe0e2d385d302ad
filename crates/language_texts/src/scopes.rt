//! The scopes that texts are typed in.
use crate::context::Context;
use crate::reading::unit_of;
use crate::unanswered::Unanswered;
use body_rules::scope_of_unit;
use language_model::{CheckError, CheckRefusal, Dollar, Scope, TypeAnswer, Typed};
use spl_tree::{CompositeParameter, Definition, Marker, Unit};
use spl_value::{Items, SplType};
use std::alloc::Global;
use std::mem::replace;
use type_rules::type_of;
use written_types::{TypeScope, TypeTable, shape_of, type_of_written};

// The type that a unit begins with.
fn first_type(alloc: Global, unit: &Unit) -> Result<SplType, Unanswered> {
    let Some(Definition::Type(definition)) = unit.get(0) else {
        return Err(Unanswered::Unread("no type"));
    };
    let table = TypeTable::of_unit(alloc, unit)?;
    match shape_of(alloc, &TypeScope::of_unit(&table), &definition.shape) {
        Ok(kind) => Ok(kind),
        Err(answer) => Err(Unanswered::Untyped(answer)),
    }
}

/// The type of a text.
pub fn type_named(alloc: Global, text: &str) -> Result<SplType, Unanswered> {
    let unit = unit_of(alloc, &["type Wanted = ", text, ";"])?;
    first_type(alloc, &unit)
}

/// Where texts stand: in a unit with its variables, and with its ports unless a marker came. With the text of
/// another unit, the `$` parameters of the composite with which this begins are there, and so are its functions
/// whose types aren't any.
#[derive(Clone, Copy)]
pub struct Place<'t> {
    pub unit: &'t str,
    pub came: Option<Marker>,
    pub composite: Option<&'t str>,
}

/// The scope of a unit with its variables, and its ports unless a marker came.
pub fn scope_of(alloc: Global, text: &str, came: Option<Marker>) -> Result<Scope, Unanswered> {
    let unit = unit_of(alloc, &[text])?;
    let context = Context::new(alloc, &unit, &unit, came)?;
    Ok(context.scope)
}

// The value of a parameter: its default, where it has one.
fn found(
    alloc: Global,
    types: &TypeScope,
    scope: &Scope,
    parameter: &CompositeParameter,
) -> Result<Result<Typed, CheckRefusal>, Unanswered> {
    let kind = type_of_written(alloc, types, &parameter.kind)?;
    let Some(default) = &parameter.default else {
        return Ok(Err(CheckRefusal {
            error: CheckError::MissingParameter,
            at: parameter.name.at,
            name: None,
        }));
    };
    match type_of(alloc, scope, default, Some(&kind)) {
        Ok(typed) => Ok(Ok(typed)),
        Err(TypeAnswer::Refused(refusal)) => Ok(Err(refusal)),
        Err(TypeAnswer::Memory) => Err(Unanswered::Memory),
    }
}

// Adds a parameter to others.
fn add_dollar(
    alloc: Global,
    types: &TypeScope,
    scope: &Scope,
    parameter: &CompositeParameter,
    dollars: &mut Items<Dollar>,
) -> Result<(), Unanswered> {
    let name = Items::from_slice(alloc, parameter.name.what.as_slice())?;
    let found = found(alloc, types, scope, parameter)?;
    dollars.push(Dollar { name, found })?;
    Ok(())
}

fn dollars(
    alloc: Global,
    unit: &Unit,
    scope: &Scope,
    parameters: &[CompositeParameter],
) -> Result<Items<Dollar>, Unanswered> {
    let table = TypeTable::of_unit(alloc, unit)?;
    let types = TypeScope::of_unit(&table);
    let mut made = Items::new(alloc);
    for parameter in parameters {
        add_dollar(alloc, &types, scope, parameter, &mut made)?;
    }
    Ok(made)
}

// Adds the parameters of the composite with which a unit begins, and the unit's functions whose types aren't
// any.
fn add_parameters(alloc: Global, scope: &mut Scope, unit: &Unit) -> Result<(), Unanswered> {
    let Some(Definition::Composite(composite)) = unit.get(0) else {
        return Err(Unanswered::Unread("no composite"));
    };
    let mut own = scope_of_unit(alloc, unit)?;
    scope.dollars = dollars(alloc, unit, &own, composite.parameters.as_slice())?;
    scope.unresolved = replace(&mut own.unresolved, Items::new(alloc));
    Ok(())
}

/// The scope of a place.
pub fn scope_at(alloc: Global, place: &Place) -> Result<Scope, Unanswered> {
    let mut scope = scope_of(alloc, place.unit, place.came)?;
    if let Some(composite) = place.composite {
        let unit = unit_of(alloc, &[composite])?;
        add_parameters(alloc, &mut scope, &unit)?;
    }
    Ok(scope)
}
