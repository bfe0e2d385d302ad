//! The tuples that codes evaluate to.
ghost use Rattle.std.specs.Prelude.{List};
ghost use Rattle.spl_value.specs.declared.types.Named.{Named};
ghost use Rattle.spl_value.specs.declared.types.SplType.{SplType};
ghost use Rattle.spl_value.specs.declared.types.SplType.TheVariants as T;
ghost use Rattle.spl_value.specs.declared.value.Value.TheViews.{out-Value};
ghost use Rattle.language_model.specs.Evaluation.{code_value, world_of};
ghost use Rattle.language_model.specs.Functions.{value};
ghost use Rattle.language_model.specs.parts.Functions.{calls_of};
ghost use Rattle.language_model.specs.Outcomes.{Done, followed, need};
ghost use Rattle.language_model.specs.Statements.{level_tuple};
ghost use Rattle.language_model.specs.WorldFits.{Fits};
ghost use Rattle.value_operations.specs.Answers.{Answers, IsMadeAs};

use crate::context::Context;
use crate::evaluate::{eval_fields, own_value};
use evaluation_laws::evaluation_law;
use language_model::Env;
use spl_tree::{Code, Functions, MOST_EVALUATED, Slot};
use spl_value::Values;
use std::alloc::Global;
use value_operations::{Made, Stop, made, values_of_tuple};

/// The tuple that a code evaluates to in an environment, or its fault, with the turns that are left.
///
/// A tuple of fields is made in the room of a list, whose values are let go of. The fault `Turns` and
/// `Memory` come as where the code is evaluated to a value.
pub fn tuple_into(
    alloc: Global,
    functions: &Functions,
    code: &Code<Slot>,
    env: &Env,
    turns: &mut u32,
    room: Values,
) -> Made
    requires { (schema : List (Named SplType)) × Fits functions.now code.now env.now (T.Tuple schema) }
    ensures { IsMadeAs (followed (value functions.now code.now (world_of env.now) turns.old) (λ v turns. need (level_tuple (out-Value v)) (λ vs. Done vs turns))) result turns.new }
{
    let context = Context::new(alloc, functions, env, *turns);
    made(tuple_at(&context, code, turns, room))
}

fn tuple_at<'e>(
    context: &Context<'e>,
    code: &'e Code<Slot>,
    turns: &mut u32,
    list: Values,
) -> Result<Values, Stop>
    requires { (schema : List (Named SplType)) × Fits context.now.functions.now code.now context.now.env.now (T.Tuple schema) }
    ensures { Answers (followed (code_value (calls_of context.now.functions.now context.now.depth) code.now (world_of context.now.env.now) turns.old) (λ v turns. need (level_tuple (out-Value v)) (λ vs. Done vs turns))) result turns.new }
{
    match code {
        Code::Tuple(fields) => eval_fields(context, MOST_EVALUATED, list, fields.as_slice(), turns),
        _ => evaluated_tuple(context, code, turns),
    }
}

/// The values of the tuple that a code of another form evaluates to.
#[inline(never)]
fn evaluated_tuple<'e>(
    context: &Context<'e>,
    code: &'e Code<Slot>,
    turns: &mut u32,
) -> Result<Values, Stop>
    requires { (schema : List (Named SplType)) × Fits context.now.functions.now code.now context.now.env.now (T.Tuple schema) }
    ensures { Answers (followed (code_value (calls_of context.now.functions.now context.now.depth) code.now (world_of context.now.env.now) turns.old) (λ v turns. need (level_tuple (out-Value v)) (λ vs. Done vs turns))) result turns.new }
{
    evaluation_law();
    values_of_tuple(own_value(context, MOST_EVALUATED, code, turns))
}
