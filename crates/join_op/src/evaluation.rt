//! The results of a Join's clauses for a pair of tuples.
ghost use Rattle.std.specs.Prelude.{None};
ghost use Rattle.spl_value.specs.declared.types.SplType.TheVariants as T;
ghost use Rattle.language_model.specs.StreamTypes.{Attributes};
ghost use Rattle.language_model.specs.WorldFits.{Fits};
ghost use Rattle.stream_model.specs.Bodies.{made_where};
ghost use Rattle.join_op.specs.Fitting.{PairFits};
ghost use Rattle.join_op.specs.steps.Giving.{MakesWhere};

use evaluation_laws::evaluation_law;
use expr_eval::{Truth, eval, holds};
use language_model::Env;
use spl_tree::{Code, Functions, Slot};
use spl_value::{Evaluated, Values};
use std::alloc::Global;
use value_operations::{Stop, tuple_values};

/// The tuple that the code gives, as where there is no condition.
fn made(
    alloc: Global,
    functions: &Functions,
    code: &Code<Slot>,
    env: &Env,
    turns: &mut u32,
) -> Result<Option<Values>, Stop>
    requires { (schema : Attributes) × Fits functions.now code.now env.now (T.Tuple schema) }
    ensures { MakesWhere (made_where functions.now None code.now env.now turns.old) result turns.new }
{
    evaluation_law();
    match eval(alloc, functions, code, env, turns) {
        Evaluated::Value(value) => Ok(Some(tuple_values(value))),
        Evaluated::Bad(kind) => Err(Stop::Fault(kind)),
        Evaluated::Memory => Err(Stop::Memory),
    }
}

/// The tuple that the code gives where the condition holds, as an absent one does.
pub(crate) fn made_where(
    alloc: Global,
    functions: &Functions,
    condition: &Option<Code<Slot>>,
    code: &Code<Slot>,
    env: &Env,
    turns: &mut u32,
) -> Result<Option<Values>, Stop>
    requires { PairFits functions.now condition.now code.now env.now }
    ensures { MakesWhere (made_where functions.now condition.now code.now env.now turns.old) result turns.new }
{
    let Some(condition) = condition else {
        return made(alloc, functions, code, env, turns);
    };
    match holds(alloc, functions, condition, env, turns) {
        Truth::Is(true) => made(alloc, functions, code, env, turns),
        Truth::Is(false) => Ok(None),
        Truth::Bad(kind) => Err(Stop::Fault(kind)),
        Truth::Memory => Err(Stop::Memory),
    }
}
