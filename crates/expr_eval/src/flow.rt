//! What follows a statement, how turns of loops and calls begin, and how calls end.
ghost use Rattle.std.specs.Prelude.{◌≡◌, None, Ok, Some};
ghost use Rattle.language_model.specs.declared.flow.Flow.{Flow};
ghost use Rattle.language_model.specs.Statements.{returned_by};
ghost use Rattle.expr_eval.specs.Running.{EndsRow, EndsLoop};
ghost use Rattle.expr_eval.specs.steps.Answered.{Begins, Enters, LoopGoes, Returned, RowGoes};

use language_model::{Env, Flow};
use spl_value::{FaultKind, Items, Value, Values};
use std::alloc::Global;
use value_operations::{Stop, enter};

/// How a row ends with what a statement answered, unless the next one follows.
pub(crate) fn statement_end(answer: Result<Flow, Stop>) -> Option<Result<Flow, Stop>>
    ensures { RowGoes answer result }
{
    match answer {
        Ok(flow) => match after_statement(flow) {
            Some(end) => Some(Ok(end)),
            None => None,
        },
        Err(stop) => Some(Err(stop)),
    }
}

/// How a loop ends with what a turn answered, unless it goes on.
pub(crate) fn turn_end(answer: Result<Flow, Stop>) -> Option<Result<Flow, Stop>>
    ensures { LoopGoes answer result }
{
    match answer {
        Ok(flow) => match after_turn(flow) {
            Some(end) => Some(Ok(end)),
            None => None,
        },
        Err(stop) => Some(Err(stop)),
    }
}

/// How a row of statements ends with one of them, unless the next one follows.
fn after_statement(flow: Flow) -> Option<Flow>
    ensures { EndsRow flow result }
{
    match flow {
        Flow::Next => None,
        end => Some(end),
    }
}

/// How a loop ends with a turn, unless it goes on.
fn after_turn(flow: Flow) -> Option<Flow>
    ensures { EndsLoop flow result }
{
    match flow {
        Flow::Next | Flow::Continued => None,
        Flow::Broken => Some(Flow::Next),
        Flow::Returned(value) => Some(Flow::Returned(value)),
    }
}

/// Begins a turn of a loop, in which a new variable has the value.
pub(crate) fn begin_turn(env: &mut Env, value: Value, turns: &mut u32) -> Result<(), Stop>
    ensures { Begins result value env.old env.new turns.old turns.new }
{
    enter(turns)?;
    env.vars.push(value)?;
    Ok(())
}

/// Begins a call, where calls may nest `depth` deep: the environment that has the arguments.
pub(crate) fn enter_call(
    alloc: Global,
    values: Values,
    depth: u32,
    turns: &mut u32,
) -> Result<Env, Stop>
    ensures { Enters result values depth turns.old turns.new }
{
    enter(turns)?;
    if depth == 0 {
        return Err(Stop::Fault(FaultKind::Turns));
    }
    Ok(Env {
        inputs: Items::new(alloc),
        vars: values,
        punct: None,
    })
}

/// What a call returned, by how its body ended.
pub(crate) fn returned(answer: Result<Flow, Stop>) -> Result<Option<Value>, Stop>
    requires { (flow : Flow) → answer ≡ Ok flow → returned_by flow ≡ None → ⊥ }
    ensures { Returned answer result }
{
    match answer {
        Ok(flow) => Ok(returned_by(flow)),
        Err(stop) => Err(stop),
    }
}

/// What a body returned.
fn returned_by(flow: Flow) -> Option<Value>
    requires { returned_by flow ≡ None → ⊥ }
    ensures { returned_by flow ≡ Some result }
{
    match flow {
        Flow::Next => None,
        Flow::Returned(value) => value,
        Flow::Broken | Flow::Continued => unreachable!(),
    }
}
