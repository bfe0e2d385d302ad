//! Outputs of several inputs.
ghost use Rattle.std.specs.Prelude.{Ok};
ghost use Rattle.language_model.specs.OutputTyping.{inputs_typing, places_typing};
ghost use Rattle.language_model.specs.Finds.{Finds};

use super::attributes::is_same;
use super::index::Index;
use super::refusals::bad_output;
use language_model::{Port, TypeAnswer, narrow};
use spl_value::{Attribute, Items, Places};
use std::alloc::Global;

/// Where the attributes of an input have those of the output, each of its type.
fn places_by(
    alloc: Global,
    at: u32,
    input: &Index,
    schema: &[Attribute],
) -> Result<Places, TypeAnswer>
    ensures { Finds (places_typing at input.now.schema.now schema.now) result }
{
    let mut places = Items::new(alloc);
    for wanted in schema {
        let Some((place, found)) = input.attribute(wanted.name.as_slice()) else {
            return Err(bad_output(at));
        };
        if !is_same(&found.kind, &wanted.kind) {
            return Err(bad_output(at));
        }
        places.push(narrow(place)?)?;
    }
    Ok(places)
}

/// Where an input has the attributes of the output.
fn places_in(
    alloc: Global,
    at: u32,
    input: &[Attribute],
    schema: &[Attribute],
) -> Result<Places, TypeAnswer>
    ensures { Finds (places_typing at input.now schema.now) result }
{
    let index = Index::new(alloc, input)?;
    places_by(alloc, at, &index, schema)
}

/// For each input of a Union, whose invocation stands at that place of the program, the places in it of the
/// attributes of the output, in their order. Each has to be there by its name and of its type, and what else
/// an input has is left out.
///
/// `Refused` is `BadOutput` at the invocation. `Memory` is also the answer for more than 2^32 attributes.
pub fn places_of(
    alloc: Global,
    at: u32,
    schema: &[Attribute],
    inputs: &[Port],
) -> Result<Items<Places>, TypeAnswer>
    ensures { Finds (inputs_typing at schema.now inputs.now) result }
{
    let mut places = Items::new(alloc);
    for input in inputs {
        places.push(places_in(alloc, at, input.schema.as_slice(), schema)?)?;
    }
    Ok(places)
}
