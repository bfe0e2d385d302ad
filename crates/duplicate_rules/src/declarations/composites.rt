//! Names that repeat an earlier one within composites and other definitions.
ghost use Rattle.std.specs.Prelude.{◌≡◌, ◌++◌, [], IfOk, flat_map};
ghost use Rattle.std.specs.Option.{option_copied, option_map_or};
ghost use Rattle.language_model.specs.Declarations.{definition_sets, first_of, kind_sets, repeated_in_definition, type_sets};
ghost use Rattle.language_model.specs.parts.Declarations.{repeated_in_composite};
ghost use Rattle.duplicate_rules.specs.steps.Earliest.{earliest_in};

use super::bodies::{earliest_in_function, earliest_in_logic};
use super::graphs::repeated_in_graph;
use super::names::{Repeated, first_repeated};
use super::rows::{Encloses, earliest_within};
use super::types::{earliest_in_shape, earliest_in_type};
use spl_tree::{
    Composite, CompositeParameter, Definition, HeadPort, Invocation, OutputStream, Placed,
    TypeDefinition,
};
use spl_value::Name;
use std::alloc::Global;

/// The first name that repeats an earlier one among the graph's names, the types or the parameters.
#[tactic(auto, using(crate::proofs::Firsts::first_laws))]
fn repeated_in_composite<'u>(alloc: Global, composite: &'u Composite) -> Repeated<'u>
    ensures { IfOk result (λ found. option_copied found ≡ first_of (repeated_in_composite composite.now)) }
{
    if let Some(name) = repeated_in_graph(alloc, composite)? {
        return Ok(Some(name));
    }
    if let Some(name) = first_repeated(alloc, composite.types.as_slice())? {
        return Ok(Some(name));
    }
    first_repeated(alloc, composite.parameters.as_slice())
}

pub(super) fn repeated_in_definition<'u>(alloc: Global, definition: &'u Definition) -> Repeated<'u>
    ensures { IfOk result (λ found. option_copied found ≡ first_of (repeated_in_definition definition.now)) }
{
    match definition {
        Definition::Composite(composite) => repeated_in_composite(alloc, composite),
        Definition::Type(_) | Definition::Function(_) => Ok(None),
    }
}

impl Encloses for HeadPort {
    ghost use Rattle.std.specs.Prelude.{[]};
    ghost use Rattle.std.specs.Option.{option_map_or};
    ghost use Rattle.language_model.specs.Declarations.{kind_sets};

    ghost inner = { λ port. option_map_or (λ shape. kind_sets shape.what) port.shape [] };

    fn earliest<'u>(&'u self, alloc: Global, best: Option<&'u Placed<Name>>) -> Repeated<'u> {
        match &self.shape {
            Some(shape) => earliest_in_shape(alloc, best, shape),
            None => Ok(best),
        }
    }
}

impl Encloses for CompositeParameter {
    ghost use Rattle.language_model.specs.Declarations.{type_sets};

    ghost inner = { λ parameter. type_sets parameter.kind };

    fn earliest<'u>(&'u self, alloc: Global, best: Option<&'u Placed<Name>>) -> Repeated<'u> {
        earliest_in_type(alloc, best, &self.kind)
    }
}

impl Encloses for TypeDefinition {
    ghost use Rattle.language_model.specs.Declarations.{kind_sets};

    ghost inner = { λ definition. kind_sets definition.shape.what };

    fn earliest<'u>(&'u self, alloc: Global, best: Option<&'u Placed<Name>>) -> Repeated<'u> {
        earliest_in_shape(alloc, best, &self.shape)
    }
}

impl Encloses for OutputStream {
    ghost use Rattle.language_model.specs.Declarations.{kind_sets};

    ghost inner = { λ stream. kind_sets stream.shape.what };

    fn earliest<'u>(&'u self, alloc: Global, best: Option<&'u Placed<Name>>) -> Repeated<'u> {
        earliest_in_shape(alloc, best, &self.shape)
    }
}

#[tactic(auto, using(crate::proofs::Best::best_laws))]
impl Encloses for Invocation {
    ghost use Rattle.language_model.specs.Declarations.{invocation_sets};

    ghost inner = { invocation_sets };

    fn earliest<'u>(&'u self, alloc: Global, best: Option<&'u Placed<Name>>) -> Repeated<'u> {
        let found = earliest_within(alloc, best, self.outputs.as_slice())?;
        match &self.clauses.logic {
            Some(logic) => earliest_in_logic(alloc, found, &logic.what),
            None => Ok(found),
        }
    }
}

/// The ports and the parameters of a composite, in the order of its head and its clauses.
#[tactic(auto, using(crate::proofs::Best::best_laws))]
fn earliest_in_head<'u>(
    alloc: Global,
    best: Option<&'u Placed<Name>>,
    composite: &'u Composite,
) -> Repeated<'u>
    ensures { IfOk result (λ found. option_copied found ≡ earliest_in (option_copied best.entry)
        (flat_map (λ port. option_map_or (λ shape. kind_sets shape.what) port.shape []) composite.now.outputs
        ++ flat_map (λ port. option_map_or (λ shape. kind_sets shape.what) port.shape []) composite.now.inputs
        ++ flat_map (λ p. type_sets p.kind) composite.now.parameters)) }
{
    let found = earliest_within(alloc, best, composite.outputs.as_slice())?;
    let found = earliest_within(alloc, found, composite.inputs.as_slice())?;
    earliest_within(alloc, found, composite.parameters.as_slice())
}

/// The types and the logic of a composite, in the order of its clauses.
#[tactic(auto, using(crate::proofs::Best::best_laws))]
fn earliest_in_composite<'u>(
    alloc: Global,
    best: Option<&'u Placed<Name>>,
    composite: &'u Composite,
) -> Repeated<'u>
    ensures { IfOk result (λ found. option_copied found ≡ earliest_in (option_copied best.entry) (definition_sets (Definition.Composite composite.now))) }
{
    let found = earliest_in_head(alloc, best, composite)?;
    let found = earliest_within(alloc, found, composite.types.as_slice())?;
    earliest_within(alloc, found, composite.graph.as_slice())
}

impl Encloses for Definition {
    ghost use Rattle.language_model.specs.Declarations.{definition_sets};

    ghost inner = { definition_sets };

    fn earliest<'u>(&'u self, alloc: Global, best: Option<&'u Placed<Name>>) -> Repeated<'u> {
        match self {
            Definition::Type(definition) => definition.earliest(alloc, best),
            Definition::Function(function) => earliest_in_function(alloc, best, function),
            Definition::Composite(composite) => earliest_in_composite(alloc, best, composite),
        }
    }
}
