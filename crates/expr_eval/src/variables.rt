//! Changes of variables.
ghost use Rattle.std.specs.Prelude.{◌≡◌, ℕ, List, Ok};
ghost use Rattle.spl_tree.specs.declared.body.Change.{Change};
ghost use Rattle.spl_tree.specs.declared.code.Selector.{Selector};
ghost use Rattle.spl_value.specs.declared.value.Value.{Value};
ghost use Rattle.language_model.specs.declared.outs.Output.{Output};
ghost use Rattle.language_model.specs.Outcomes.{Outcome, followed};
ghost use Rattle.language_model.specs.parts.Statements.{changed_at};
ghost use Rattle.value_operations.specs.Answers.{Answers};
ghost use Rattle.value_operations.specs.steps.Places.{CanChangeAt};
ghost use Rattle.expr_eval.specs.Running.{LeadsNext, state};
ghost use Rattle.expr_eval.specs.steps.Keeping.{Keeps};

use language_model::Env;
use spl_tree::{Change, MOST_EVALUATED, Selector};
use spl_value::{Items, Value};
use std::alloc::Global;
use value_operations::{Stop, change_at};

/// Changes what steps take of a variable in turn, where they and the change were evaluated.
pub(crate) fn change_with(
    alloc: Global,
    env: &mut Env,
    variable: u32,
    values: Result<(Items<Selector<Value>>, Change<Value>), Stop>,
) -> Result<(), Stop>
    requires { (w : List (Selector Value) × Change Value) → values ≡ Ok w → CanChangeAt variable w.0 w.1 env.old }
    ensures leads { (outcome : Outcome (List (Selector Value) × Change Value)) (submits : List Output) (turns : ℕ) → Answers outcome values turns
        → LeadsNext (followed outcome (λ w left. changed_at variable w.0 w.1 (state env.old submits) left)) result (state env.new submits) turns }
    ensures kept { Keeps env.old env.new }
{
    match values {
        Ok((steps, change)) => change_variable(alloc, env, variable, steps.as_slice(), change),
        Err(stop) => Err(stop),
    }
}

/// Changes what the steps take of a variable in turn.
fn change_variable(
    alloc: Global,
    env: &mut Env,
    variable: u32,
    steps: &[Selector<Value>],
    change: Change<Value>,
) -> Result<(), Stop>
    requires { CanChangeAt variable steps.now change env.old }
    ensures leads { (submits : List Output) (turns : ℕ) → LeadsNext (changed_at variable steps.now change (state env.old submits) turns) result (state env.new submits) turns }
    ensures kept { Keeps env.old env.new }
{
    let value = env.vars.item_mut(variable as usize);
    change_at(alloc, MOST_EVALUATED, value, steps, change)
}
