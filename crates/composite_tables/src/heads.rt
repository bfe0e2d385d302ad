//! Whether an invocation fits the head of the composite that it invokes.
ghost use Rattle.std.specs.Prelude.{◌≡◌, ◌&&◌, ◌||◌, List, [], ℕ, IfOk, is_some};
ghost use Rattle.std.specs.List.{list_all};
ghost use Rattle.language_model.specs.Invoking.{stream_names, fit_parameters, fits_head};
ghost use Rattle.language_model.specs.Names.{is_named};
ghost use Rattle.language_model.specs.parts.Invoking.{has_arguments_alone};
ghost use Rattle.program_tables.specs.Names.{HoldsNames};
ghost use Rattle.composite_tables.specs.steps.Arguments.{FitArguments};

use crate::tables::Scope;
use program_tables::Names;
use spl_tree::{Clauses, CompositeParameter, Invocation, Parameter};
use spl_value::NoMemory;
use std::alloc::Global;

/// Whether arguments each have one value and are of a parameter of the head, and none is given twice. As
/// far as that is so, their names are added to those that are given, of which there is none before.
fn fit_arguments<'u>(
    head: &Scope<'_>,
    arguments: &'u [Parameter],
    given: &mut Names<'u>,
) -> Result<bool, NoMemory>
    requires { HoldsNames given.old [] }
    ensures { IfOk result (λ fit. FitArguments head.now.composite.now arguments.now fit given.new) }
{
    for argument in arguments {
        let name = argument.name.what.as_slice();
        if argument.values.len() != 1 || !head.has_parameter(name) || given.has(name) {
            return Ok(false);
        }
        given.add(name)?;
    }
    Ok(true)
}

/// Whether each parameter has a default or is given.
fn have_values(parameters: &[CompositeParameter], given: &Names<'_>) -> bool
    ensures { (names : List (List ℕ)) → HoldsNames given.now names → result ≡ list_all (λ p. is_some p.default || is_named names p.name.what) parameters.now }
{
    for parameter in parameters {
        if parameter.default.is_none() && !given.has(parameter.name.what.as_slice()) {
            return false;
        }
    }
    true
}

/// Whether arguments fit the parameters of a head.
fn fit_parameters(
    alloc: Global,
    head: &Scope<'_>,
    arguments: &[Parameter],
) -> Result<bool, NoMemory>
    ensures { IfOk result (λ fit. fit ≡ fit_parameters head.now.composite.now arguments.now) }
{
    let mut given = Names::new(alloc);
    let fit = fit_arguments(head, arguments, &mut given)?;
    if !fit {
        return Ok(false);
    }
    Ok(have_values(head.composite.parameters.as_slice(), &given))
}

/// Whether a composite makes each output of its head.
fn makes_outputs(head: &Scope<'_>) -> bool
    ensures { result ≡ list_all (λ p. is_named (stream_names head.now.composite.now) p.name.what) head.now.composite.now.outputs }
{
    let outputs = head.composite.outputs.as_slice();
    outputs
        .iter()
        .all(|port| head.makes(port.name.what.as_slice()))
}

fn has_arguments_alone(clauses: &Clauses) -> bool
    ensures { result ≡ has_arguments_alone clauses.now }
{
    clauses.logic.is_none() && clauses.window.is_none() && clauses.output.is_none()
}

/// Whether an invocation fits the head of a composite: its ports and arguments; and the composite makes
/// each of its outputs.
pub fn fits_head(alloc: Global, head: &Scope<'_>, invocation: &Invocation) -> Result<bool, NoMemory>
    ensures { IfOk result (λ fits. fits ≡ fits_head head.now.composite.now invocation.now) }
{
    let composite = head.composite;
    if invocation.outputs.len() != composite.outputs.len()
        || invocation.inputs.len() != composite.inputs.len()
        || !has_arguments_alone(&invocation.clauses)
    {
        return Ok(false);
    }
    let fit = fit_parameters(alloc, head, invocation.clauses.parameters.as_slice())?;
    Ok(fit && makes_outputs(head))
}
