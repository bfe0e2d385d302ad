//! Texts of bodies against what they leave.
ghost use Rattle.std.specs.Prelude.{◌≡◌, false, [], map, IfOk};
ghost use Rattle.language_model.specs.declared.scope.Port.{Port};
ghost use Rattle.language_model.specs.BodyFits.{OfHandler, RowFits};
ghost use Rattle.expr_eval.specs.Running.{BodyIsFit};
ghost use Rattle.language_texts.specs.Contexts.{Holds};

pub(crate) mod tables;

use crate::values::with_turns;
use body_rules::{BodyPurpose, BodySetting, body_of, functions_of};
use expr_eval::{Ran, run_body};
use language_laws::{bodies_law, dollars_law};
use language_model::{Env, Output, Outs, Port, Scope};
use language_texts::{Context, TURNS, Unanswered, body_named, scope_of, unit_of};
use spl_tree::{Body, Functions, Unit};
use spl_value::{Item, Value};
use std::alloc::Global;
use test_texts::text::Text;
use test_texts::values::add_value;
use written_types::{TypeScope, TypeTable};

fn add_all(out: &mut Text, values: &[Value]) {
    for (at, value) in values.iter().enumerate() {
        out.add_between(at, ", ");
        add_value(out, value);
    }
}

fn add_output(out: &mut Text, output: &Output) {
    out.add_number(i128::from(output.port));
    match &output.item {
        Item::Tuple(values) => {
            out.add(":<");
            add_all(out, values.as_slice());
            out.add(">");
        }
        Item::Window => out.add(":window"),
        _ => out.add(":final"),
    }
}

fn add_left(out: &mut Text, values: &[Value], submits: &Outs, turns: u32) {
    add_all(out, values);
    out.add(" | ");
    if submits.is_empty() {
        out.add("none");
    }
    for at in 0..submits.len() {
        if let Some(output) = submits.get(at) {
            out.add_between(at, ", ");
            add_output(out, output);
        }
    }
    out.add_place(" | ", turns);
}

// The code of the function `body` of a unit, as that of a handler with these output ports in a scope without
// `$` parameters.
fn body_code(
    alloc: Global,
    unit: &Unit,
    scope: &mut Scope,
    outputs: &[Port],
) -> Result<Body, Unanswered>
    ensures fits { IfOk result (λ row. RowFits (OfHandler (map {A = Port} (λ p. p.schema) outputs.now)) false scope.old row) }
    ensures same { IfOk result (λ _. scope.new ≡ scope.old) }
{
    bodies_law();
    dollars_law();
    if !scope.dollars.is_empty() {
        return Err(Unanswered::Unread("parameters without values"));
    }
    let table = TypeTable::of_unit(alloc, unit)?;
    let setting = BodySetting {
        types: TypeScope::of_unit(&table),
        purpose: BodyPurpose::Handler(outputs),
    };
    let body = body_of(alloc, &setting, scope, body_named(unit, "body"))?;
    Ok(body)
}

// Runs a body.
fn run(
    alloc: Global,
    functions: &Functions,
    body: &Body,
    env: &mut Env,
    turns: u32,
    out: &mut Text,
) -> Result<(), Unanswered>
    requires { BodyIsFit functions.now body.now env.old }
{
    let mut left = turns;
    let mut submits = Outs::new(alloc);
    match run_body(alloc, functions, body, env, &mut left, &mut submits) {
        Ran::Done => {
            add_left(out, env.vars.as_slice(), &submits, left);
            Ok(())
        }
        Ran::Bad(kind) => Err(Unanswered::Fault(kind)),
        Ran::Memory => Err(Unanswered::Memory),
    }
}

// Runs the body of a unit.
fn run_unit(
    alloc: Global,
    context: Context,
    unit: &Unit,
    turns: u32,
    out: &mut Text,
) -> Result<(), Unanswered>
    requires { Holds context.scope context.env context.functions }
{
    let handled = scope_of(alloc, tables::OUTPUTS, None)?;
    let Context {
        mut scope,
        mut env,
        functions,
    } = context;
    let body = body_code(alloc, unit, &mut scope, handled.ports.as_slice())?;
    run(alloc, &functions, &body, &mut env, turns, out)
}

// The unit of a row without its turns: the body and the variables of the state.
fn unit_of_row(alloc: Global, row: &str) -> Result<Unit, Unanswered> {
    match row.split_once(" @ ") {
        Some((state, body)) => unit_of(
            alloc,
            &[
                "void body() { ",
                body,
                " } void variables() { ",
                state,
                " }",
            ],
        ),
        None => Err(Unanswered::Unread("no state")),
    }
}

/// Adds what a body leaves that may call the functions of the bodies' unit and has their output ports.
pub(crate) fn add_left_by(alloc: Global, text: &str, out: &mut Text) -> Result<(), Unanswered> {
    let (row, turns) = with_turns(text);
    let unit = unit_of_row(alloc, row)?;
    let functions = unit_of(alloc, &[tables::FUNCTIONS])?;
    let context = Context::new(alloc, &functions, &unit, None)?;
    run_unit(alloc, context, &unit, turns.unwrap_or(TURNS), out)
}

/// Adds why functions of a unit are refused.
pub(crate) fn add_refusal(alloc: Global, text: &str, out: &mut Text) -> Result<(), Unanswered> {
    let unit = unit_of(alloc, &[text])?;
    match functions_of(alloc, &unit) {
        Ok(_) => {
            out.add("no refusal");
            Ok(())
        }
        Err(answer) => Err(Unanswered::Untyped(answer)),
    }
}
