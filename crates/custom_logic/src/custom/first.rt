//! The first values of a Custom's state.
ghost use Rattle.std.specs.Prelude.{◌≡◌, [], ℕ, IfOk, Some, map, slice_get};
ghost use Rattle.language_model.specs.CodeFits.{CodeFits};
ghost use Rattle.language_model.specs.declared.checked.StateVariable.{StateVariable};
ghost use Rattle.language_model.specs.FitLaws.{no_names};
ghost use Rattle.language_model.specs.Functions.{function_env};
ghost use Rattle.stream_model.specs.Customs.{first_value};

use expr_eval::eval;
use language_model::{Env, StateVariable};
use spl_tree::Functions;
use spl_value::{Evaluated, Items, NoMemory, Value, Values};
use std::alloc::Global;

/// The first value of a variable, whose code names nothing.
fn first_value(
    alloc: Global,
    functions: &Functions,
    env: &Env,
    variable: &StateVariable,
) -> Result<Value, NoMemory>
    requires fit { CodeFits no_names variable.now.first variable.now.variable.kind }
    requires functions { functions.now ≡ [] }
    requires env { env.now ≡ function_env [] }
    ensures { IfOk result (λ v. v ≡ first_value variable.now) }
{
    let mut turns = 0;
    match eval(alloc, functions, &variable.first, env, &mut turns) {
        Evaluated::Value(value) => Ok(value),
        Evaluated::Bad(_) => Ok(Value::Bool(false)),
        Evaluated::Memory => Err(NoMemory),
    }
}

/// The first values of the variables of a state.
pub(crate) fn first_values(alloc: Global, state: &Items<StateVariable>) -> Result<Values, NoMemory>
    requires { (k : ℕ) (x : StateVariable) → slice_get state.now k ≡ Some x → CodeFits no_names x.first x.variable.kind }
    ensures { IfOk result (λ values. values ≡ map first_value state.now) }
{
    let functions = Items::new(alloc);
    let env = Env {
        inputs: Items::new(alloc),
        vars: Items::new(alloc),
        punct: None,
    };
    let mut values = Items::with_capacity(alloc, state.len())?;
    'variables: for variable in state.as_slice() {
        let value = first_value(alloc, &functions, &env, variable)?;
        values.push(value)?;
    }
    Ok(values)
}
