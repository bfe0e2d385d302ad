//! The arguments of an Aggregate's assignments.
ghost use Rattle.std.specs.Prelude.{◌≡◌, IfOk};
ghost use Rattle.stream_model.specs.Aggregates.{arguments as arguments_of};
ghost use Rattle.stream_model.specs.parts.Aggregates.{argument as argument_of};
ghost use Rattle.stream_model.specs.Bodies.{at_tuple, most_turns};
ghost use Rattle.value_operations.specs.Answers.{Answers};
ghost use Rattle.port_reacts.specs.Evaluation.{idle};
ghost use Rattle.aggregate_op.specs.Arguments.{blank};
ghost use Rattle.aggregate_op.specs.steps.Arguments.{ArgumentFits, ArgumentsFit};
ghost use Rattle.aggregate_op.specs.steps.Evaluating.{EvaluatesTo, HasArguments};

use expr_eval::eval;
use language_model::{CollectedAttribute, Env};
use port_reacts::MOST_TURNS;
use spl_tree::{Code, Functions, Slot};
use spl_value::{Evaluated, Items, Value, Values};
use std::alloc::Global;
use value_operations::Stop;

/// The value of an argument, where there is one.
fn argument(
    alloc: Global,
    functions: &Functions,
    argument: &Option<Code<Slot>>,
    env: &Env,
    turns: &mut u32,
) -> Result<Option<Value>, Stop>
    requires { ArgumentFits functions.now argument.now env.now }
    ensures { Answers (argument_of functions.now argument.now env.now turns.old) result turns.new }
{
    let Some(code) = argument else {
        return Ok(None);
    };
    match eval(alloc, functions, code, env, turns) {
        Evaluated::Value(value) => Ok(Some(value)),
        Evaluated::Bad(kind) => Err(Stop::Fault(kind)),
        Evaluated::Memory => Err(Stop::Memory),
    }
}

/// A value in place of one that may be absent.
fn or_blank(value: Option<Value>) -> Value
    ensures { result ≡ blank value }
{
    match value {
        Some(value) => value,
        None => Value::Bool(false),
    }
}

/// The values of the arguments of all assignments, in their order, under the turns of one event. Where
/// there is no argument, a blank stands.
fn arguments(
    alloc: Global,
    functions: &Functions,
    output: &[CollectedAttribute],
    env: &Env,
) -> Result<Values, Stop>
    requires { ArgumentsFit functions.now output.now env.now }
    ensures { EvaluatesTo (arguments_of functions.now output.now env.now most_turns) result }
{
    let mut turns = MOST_TURNS;
    let mut values = Items::with_capacity(alloc, output.len())?;
    for assignment in output {
        let value = argument(alloc, functions, &assignment.argument, env, &mut turns)?;
        values.push(or_blank(value))?;
    }
    Ok(values)
}

/// A tuple, and the values of its arguments.
pub(crate) fn with_arguments(
    alloc: Global,
    functions: &Functions,
    output: &Items<CollectedAttribute>,
    env: &mut Env,
    tuple: Values,
) -> Result<(Values, Values), Stop>
    requires fit { ArgumentsFit functions.now output.now (at_tuple tuple) }
    requires idle { env.old ≡ idle }
    ensures has { HasArguments (arguments_of functions.now output.now (at_tuple tuple) most_turns) tuple result }
    ensures idle { IfOk result (λ _. env.new ≡ idle) }
{
    env.inputs.push(tuple)?;
    let values = arguments(alloc, functions, output.as_slice(), env)?;
    let Some(tuple) = env.inputs.pop() else {
        unreachable!()
    };
    Ok((tuple, values))
}
