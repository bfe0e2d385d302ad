//! Names that repeat an earlier one among the attributes of types.
ghost use Rattle.std.specs.Prelude.{◌≡◌, IfOk};
ghost use Rattle.std.specs.Option.{option_copied};
ghost use Rattle.language_model.specs.Declarations.{type_sets, attribute_sets};
ghost use Rattle.language_model.specs.parts.Declarations.{shape_sets};
ghost use Rattle.duplicate_rules.specs.steps.Earliest.{earliest_in};

use super::names::{Repeated, earliest_repeated};
use spl_tree::{Attribute, Placed, Shape, ShapeKind, TypeExpr, TypeKind};
use spl_value::Name;
use std::alloc::Global;

/// Of a name and those that repeat an earlier one in a type, the one that comes first in the text.
#[cycle(types)]
#[tactic(auto, using(crate::proofs::TypeSets::type_laws, crate::proofs::Best::best_laws))]
pub(super) fn earliest_in_type<'u>(
    alloc: Global,
    best: Option<&'u Placed<Name>>,
    written: &'u TypeExpr,
) -> Repeated<'u>
    ensures { IfOk result (λ found. option_copied found ≡ earliest_in (option_copied best.entry) (type_sets written.now)) }
{
    match written.what.get() {
        TypeKind::List(element) => earliest_in_type(alloc, best, element),
        TypeKind::Map(key, value) => {
            let found = earliest_in_type(alloc, best, key)?;
            earliest_in_type(alloc, found, value)
        }
        TypeKind::Tuple(attributes) => {
            earliest_in_attributes(alloc, best, attributes.as_slice())
        }
        TypeKind::Boolean
        | TypeKind::Rstring
        | TypeKind::Int(_)
        | TypeKind::LeftOut(_)
        | TypeKind::Name(_) => Ok(best),
    }
}

/// The names of attributes are a set, and their types may have more.
#[cycle(types)]
#[tactic(auto, using(crate::proofs::TypeSets::type_laws, crate::proofs::Best::best_laws))]
pub(super) fn earliest_in_attributes<'u>(
    alloc: Global,
    best: Option<&'u Placed<Name>>,
    attributes: &'u [Attribute<TypeExpr>],
) -> Repeated<'u>
    ensures { IfOk result (λ found. option_copied found ≡ earliest_in (option_copied best.entry) (attribute_sets attributes.now)) }
{
    let mut found = earliest_repeated(alloc, best, attributes)?;
    for attribute in attributes {
        found = earliest_in_type(alloc, found, &attribute.kind)?;
    }
    Ok(found)
}

pub(super) fn earliest_in_shape<'u>(
    alloc: Global,
    best: Option<&'u Placed<Name>>,
    shape: &'u Shape,
) -> Repeated<'u>
    ensures { IfOk result (λ found. option_copied found ≡ earliest_in (option_copied best.entry) (shape_sets shape.now)) }
{
    match &shape.what {
        ShapeKind::Type(written) => earliest_in_type(alloc, best, written),
        ShapeKind::Attributes(attributes) => {
            earliest_in_attributes(alloc, best, attributes.as_slice())
        }
    }
}
