//! Where the names in types lead.
ghost use Rattle.std.specs.Prelude.{◌≡◌, ◌++◌, OnOk, IfOk, flat_map};
ghost use Rattle.language_model.specs.TypeNames.{type_names};
ghost use Rattle.language_model.specs.parts.TypeNames.{shape_names};
ghost use Rattle.written_types.specs.steps.Definitions.{places_of, rows_of};

use crate::definitions::Definitions;
use spl_tree::{Attribute, MOST_HEIGHT, Shape, ShapeKind, TypeExpr, TypeKind};
use spl_value::{Items, NoMemory};
use std::alloc::Global;

/// Adds the places of the definitions of the names in a type.
#[cycle(places)]
#[tactic(auto, using(language_model::proofs::TypeNameLaws::name_laws, crate::proofs::DefinedPlaces::place_laws))]
fn add_of_type(
    definitions: &Definitions,
    written: &TypeExpr,
    levels: u32,
    places: &mut Items<u32>,
) -> Result<(), NoMemory>
    ensures { OnOk result (places.new ≡ places.old ++ places_of definitions.now (type_names written.now)) }
{
    let Some(levels) = levels.checked_sub(1) else {
        return Err(NoMemory);
    };
    match written.what.get() {
        TypeKind::Name(name) => {
            if let Some(place) = definitions.place(name.as_slice()) {
                places.push(place)?;
            }
            Ok(())
        }
        TypeKind::List(element) => add_of_type(definitions, element, levels, places),
        TypeKind::Map(key, value) => {
            add_of_type(definitions, key, levels, places)?;
            add_of_type(definitions, value, levels, places)?;
            Ok(())
        }
        TypeKind::Tuple(attributes) => {
            add_of_attributes(definitions, attributes.as_slice(), levels, places)
        }
        TypeKind::Boolean | TypeKind::Rstring | TypeKind::Int(_) | TypeKind::LeftOut(_) => Ok(()),
    }
}

#[cycle(places)]
fn add_of_attributes(
    definitions: &Definitions,
    attributes: &[Attribute<TypeExpr>],
    levels: u32,
    places: &mut Items<u32>,
) -> Result<(), NoMemory>
    ensures { OnOk result (places.new ≡ places.old ++ places_of definitions.now (flat_map (λ a. type_names a.kind) attributes.now)) }
{
    for attribute in attributes {
        add_of_type(definitions, &attribute.kind, levels, places)?;
    }
    Ok(())
}

/// The places of the definitions of the names in a shape.
fn places_of_shape(
    alloc: Global,
    definitions: &Definitions,
    shape: &Shape,
) -> Result<Items<u32>, NoMemory>
    ensures { IfOk result (λ places. places ≡ places_of definitions.now (shape_names shape.now)) }
{
    let mut places = Items::new(alloc);
    match &shape.what {
        ShapeKind::Type(written) => add_of_type(definitions, written, MOST_HEIGHT, &mut places)?,
        ShapeKind::Attributes(attributes) => {
            add_of_attributes(definitions, attributes.as_slice(), MOST_HEIGHT, &mut places)?;
        }
    }
    Ok(places)
}

/// For each definition, the places of the definitions of the names in it.
pub(crate) fn rows_of(alloc: Global, definitions: &Definitions) -> Result<Vec<Items<u32>>, NoMemory>
    ensures { IfOk result (λ rows. rows.items ≡ rows_of definitions.now) }
{
    let mut rows = Vec::new(alloc);
    for definition in definitions.list() {
        rows.push(places_of_shape(alloc, definitions, &definition.shape)?)?;
    }
    Ok(rows)
}
