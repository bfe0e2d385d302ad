//! Names that repeat an earlier one within functions and the `logic` of operators.
ghost use Rattle.std.specs.Prelude.{◌≡◌, IfOk};
ghost use Rattle.std.specs.Option.{option_copied};
ghost use Rattle.language_model.specs.Declarations.{definition_sets, logic_sets};
ghost use Rattle.language_model.specs.parts.Declarations.{variable_sets};
ghost use Rattle.duplicate_rules.specs.steps.Earliest.{earliest_in};

use super::names::{Repeated, earliest_repeated};
use super::rows::{Encloses, earliest_within};
use super::statements::earliest_in_block;
use super::types::{earliest_in_attributes, earliest_in_type};
use spl_tree::{Declaration, Definition, FunctionDefinition, Handler, Logic, Placed};
use spl_value::Name;
use std::alloc::Global;

impl Encloses for Declaration {
    ghost use Rattle.language_model.specs.Declarations.{type_sets};

    ghost inner = { λ declaration. type_sets declaration.kind };

    fn earliest<'u>(&'u self, alloc: Global, best: Option<&'u Placed<Name>>) -> Repeated<'u> {
        earliest_in_type(alloc, best, &self.kind)
    }
}

impl Encloses for Placed<Handler> {
    ghost use Rattle.language_model.specs.Declarations.{block_sets};

    ghost inner = { λ handler. block_sets handler.what.body };

    fn earliest<'u>(&'u self, alloc: Global, best: Option<&'u Placed<Name>>) -> Repeated<'u> {
        earliest_in_block(alloc, best, self.what.body.as_slice())
    }
}

/// The variables of a state are a set, and their types may have more.
#[tactic(auto, using(crate::proofs::Best::best_laws))]
fn earliest_in_variables<'u>(
    alloc: Global,
    best: Option<&'u Placed<Name>>,
    variables: &'u [Declaration],
) -> Repeated<'u>
    ensures { IfOk result (λ found. option_copied found ≡ earliest_in (option_copied best.entry) (variable_sets variables.now)) }
{
    let found = earliest_repeated(alloc, best, variables)?;
    earliest_within(alloc, found, variables)
}

#[tactic(auto, using(crate::proofs::Best::best_laws))]
pub(super) fn earliest_in_logic<'u>(
    alloc: Global,
    best: Option<&'u Placed<Name>>,
    logic: &'u Logic,
) -> Repeated<'u>
    ensures { IfOk result (λ found. option_copied found ≡ earliest_in (option_copied best.entry) (logic_sets logic.now)) }
{
    let found = earliest_in_variables(alloc, best, logic.state.as_slice())?;
    earliest_within(alloc, found, logic.handlers.as_slice())
}

/// The parameters of a function are a set, and the variables of its body's block are another one.
#[tactic(auto, using(crate::proofs::Best::best_laws))]
pub(super) fn earliest_in_function<'u>(
    alloc: Global,
    best: Option<&'u Placed<Name>>,
    function: &'u FunctionDefinition,
) -> Repeated<'u>
    ensures { IfOk result (λ found. option_copied found ≡ earliest_in (option_copied best.entry) (definition_sets (Definition.Function function.now))) }
{
    let found = match &function.result {
        Some(written) => earliest_in_type(alloc, best, written)?,
        None => best,
    };
    let found = earliest_in_attributes(alloc, found, function.parameters.as_slice())?;
    earliest_in_block(alloc, found, function.body.as_slice())
}
