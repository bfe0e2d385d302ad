//! What statements do with what their codes came to.
ghost use Rattle.std.specs.Prelude.{◌≡◌, ℕ, List, None, Ok, Option, Some};
ghost use Rattle.spl_value.specs.declared.item.Item.TheVariants as I;
ghost use Rattle.spl_value.specs.declared.value.Value.{Value};
ghost use Rattle.spl_value.specs.declared.value.Value.TheViews.{out-Value};
ghost use Rattle.language_model.specs.declared.env.Env.{Env};
ghost use Rattle.language_model.specs.declared.flow.Flow.{Flow};
ghost use Rattle.language_model.specs.declared.flow.Flow.TheVariants as F;
ghost use Rattle.language_model.specs.declared.outs.Output.{Output};
ghost use Rattle.language_model.specs.Outcomes.{Outcome, Done, followed, need};
ghost use Rattle.language_model.specs.Statements.{State, declared, level_tuple, submitted};
ghost use Rattle.value_operations.specs.Answers.{Answers, AnswersHeld};
ghost use Rattle.expr_eval.specs.Running.{Leads, LeadsNext, state};
ghost use Rattle.expr_eval.specs.steps.Keeping.{Keeps};

use language_model::{Env, Flow, Output, Outs};
use spl_value::{Item, Value};
use value_operations::{Held, Stop, tuple_values};

/// The next statement follows what was done.
pub(crate) fn next_follows(done: Result<(), Stop>) -> Result<Flow, Stop>
    ensures { (outcome : Outcome (Flow × State)) (s : State) (turns : ℕ) → LeadsNext outcome done s turns → Leads outcome result s turns }
{
    match done {
        Ok(()) => Ok(Flow::Next),
        Err(stop) => Err(stop),
    }
}

/// Lets go of what isn't used.
fn next_behind<T: Drop>(_: T) -> Flow
    ensures { result ≡ F.Next }
{
    Flow::Next
}

/// The next statement follows a value that isn't used.
pub(crate) fn next_follows_value(value: Result<Held<'_>, Stop>) -> Result<Flow, Stop>
    ensures { (outcome : Outcome Value) (s : State) (turns : ℕ) → AnswersHeld outcome value.entry turns
        → Leads (followed outcome (λ v left. Done (F.Next, s) left)) result s turns }
{
    match value {
        Ok(value) => Ok(next_behind(value)),
        Err(stop) => Err(stop),
    }
}

/// The next statement follows a call whose result isn't used.
pub(crate) fn next_follows_call(returned: Result<Option<Value>, Stop>) -> Result<Flow, Stop>
    ensures { (outcome : Outcome (Option Value)) (s : State) (turns : ℕ) → Answers outcome returned turns
        → Leads (followed outcome (λ v left. Done (F.Next, s) left)) result s turns }
{
    match returned {
        Ok(value) => Ok(next_behind(value)),
        Err(stop) => Err(stop),
    }
}

/// A value is returned.
pub(crate) fn return_value(value: Result<Value, Stop>) -> Result<Flow, Stop>
    ensures { (outcome : Outcome Value) (s : State) (turns : ℕ) → Answers outcome value turns
        → Leads (followed outcome (λ v left. Done (F.Returned (Some v), s) left)) result s turns }
{
    match value {
        Ok(value) => Ok(Flow::Returned(Some(value))),
        Err(stop) => Err(stop),
    }
}

/// A variable with a value is declared.
pub(crate) fn declare(env: &mut Env, value: Result<Value, Stop>) -> Result<Flow, Stop>
    ensures leads { (outcome : Outcome Value) (submits : List Output) (turns : ℕ) → Answers outcome value turns
        → Leads (followed outcome (λ v left. Done (F.Next, declared (state env.old submits) v) left)) result (state env.new submits) turns }
    ensures kept { Keeps env.old env.new }
{
    match value {
        Ok(value) => {
            env.vars.push(value)?;
            Ok(Flow::Next)
        }
        Err(stop) => Err(stop),
    }
}

/// A tuple is submitted.
pub(crate) fn submit(
    port: u32,
    tuple: Result<Value, Stop>,
    submits: &mut Outs,
) -> Result<Flow, Stop>
    requires { (v : Value) → tuple ≡ Ok v → level_tuple (out-Value v) ≡ None → ⊥ }
    ensures { (outcome : Outcome Value) (env : Env) (turns : ℕ) → Answers outcome tuple turns
        → Leads (followed outcome (λ v left. need (level_tuple (out-Value v)) (λ values. Done (F.Next, submitted (state env submits.old) port (I.Tuple values)) left))) result (state env submits.new) turns }
{
    match tuple {
        Ok(value) => {
            let item = Item::Tuple(tuple_values(value));
            submits.push(Output { port, item })?;
            Ok(Flow::Next)
        }
        Err(stop) => Err(stop),
    }
}

/// A window marker is submitted.
pub(crate) fn submit_window(port: u32, submits: &mut Outs) -> Result<Flow, Stop>
    ensures { (env : Env) (turns : ℕ) → Leads (Done (F.Next, submitted (state env submits.old) port I.Window) turns) result (state env submits.new) turns }
{
    let item = Item::Window;
    submits.push(Output { port, item })?;
    Ok(Flow::Next)
}
