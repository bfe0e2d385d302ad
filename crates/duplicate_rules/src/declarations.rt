//! Names that are declared twice in one place.
ghost use Rattle.std.specs.Prelude.{◌≡◌, IfOk, flat_map};
ghost use Rattle.std.specs.Option.{option_copied};
ghost use Rattle.language_model.specs.Declarations.{declared_twice, first_of, repeated_in_definition};

mod bodies;
mod composites;
mod definitions;
mod graphs;
mod names;
mod rows;
mod statements;
mod types;

use composites::repeated_in_definition;
use definitions::repeated_definition;
use names::Repeated;
use rows::earliest_within;
use spl_tree::{Definition, Placed, Unit};
use spl_value::{Items, Name, NoMemory};
use std::alloc::Global;

/// The first name that a unit declares twice in one place, with the place of the later one: first of
/// the unit's own definitions, then of the sets of each composite, and then the name that stands first
/// in the text of those within types and statements.
pub fn declared_twice(alloc: Global, unit: &Unit) -> Result<Option<Placed<Name>>, NoMemory>
    ensures { IfOk result (λ found. found ≡ declared_twice unit.now) }
{
    match repeated_in_unit(alloc, unit.as_slice())? {
        None => Ok(None),
        Some(name) => {
            let what = Items::from_slice(alloc, name.what.as_slice())?;
            Ok(Some(Placed { at: name.at, what }))
        }
    }
}

#[tactic(auto, using(crate::proofs::Firsts::first_laws))]
fn repeated_in_unit<'u>(alloc: Global, unit: &'u [Definition]) -> Repeated<'u>
    ensures { IfOk result (λ found. option_copied found ≡ declared_twice unit.now) }
{
    if let Some(name) = repeated_definition(alloc, unit)? {
        return Ok(Some(name));
    }
    if let Some(name) = repeated_in_definitions(alloc, unit)? {
        return Ok(Some(name));
    }
    earliest_within(alloc, None, unit)
}

/// The first name that repeats an earlier one in a set of a composite.
fn repeated_in_definitions<'u>(alloc: Global, unit: &'u [Definition]) -> Repeated<'u>
    ensures { IfOk result (λ found. option_copied found ≡ first_of (flat_map repeated_in_definition unit.now)) }
{
    for definition in unit {
        if let Some(name) = repeated_in_definition(alloc, definition)? {
            return Ok(Some(name));
        }
    }
    Ok(None)
}
