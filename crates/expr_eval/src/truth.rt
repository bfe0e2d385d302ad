//! Whether conditions hold. What is only asked makes no value.
ghost use Rattle.std.specs.Prelude.{◌≡◌, ◌≢◌, ℕ, IfSome};
ghost use Rattle.spl_tree.specs.declared.code.BinaryCode.TheVariants as D;
ghost use Rattle.spl_tree.specs.declared.code.Code.TheVariants as C;
ghost use Rattle.spl_value.specs.declared.types.SplType.TheVariants as T;
ghost use Rattle.spl_value.specs.declared.value.Value.TheVariants as V;
ghost use Rattle.language_model.specs.CodeFits.{UnariesGive};
ghost use Rattle.language_model.specs.Evaluation.{code_value, truth, unaries_of, world_of};
ghost use Rattle.language_model.specs.EvaluationLaws.{truth_value};
ghost use Rattle.language_model.specs.Functions.{value};
ghost use Rattle.language_model.specs.parts.Functions.{calls_of};
ghost use Rattle.language_model.specs.Outcomes.{Done};
ghost use Rattle.language_model.specs.WorldFits.{Fits};
ghost use Rattle.value_operations.specs.Answers.{Answers, IsSo};
ghost use Rattle.expr_eval.specs.Fitting.{IsFit};

use crate::context::Context;
use crate::evaluate::{eval_at, is_true};
use evaluation_laws::evaluation_law;
use language_model::Env;
use spl_tree::{BinaryCode, Code, Functions, MOST_EVALUATED, Slot, UnaryCode};
use spl_value::Value;
use std::alloc::Global;
use value_operations::{
    Stop, Truth, are_related, is_marker, related_with, standing_value, truth, truth_of,
};

/// Whether a condition holds in an environment, or its fault, with the turns that are left.
///
/// The fault `Turns` and `Memory` come as where the condition is evaluated to a value.
pub fn holds(
    alloc: Global,
    functions: &Functions,
    code: &Code<Slot>,
    env: &Env,
    turns: &mut u32,
) -> Truth
    requires { Fits functions.now code.now env.now T.Bool }
    ensures { IsSo (truth (value functions.now code.now) (world_of env.now) turns.old) result turns.new }
{
    let context = Context::new(alloc, functions, env, *turns);
    truth(truth_at(&context, MOST_EVALUATED, code, turns))
}

/// Whether a condition holds, where codes may nest `room` deep.
#[cycle(truth)]
fn truth_at<'e>(
    context: &Context<'e>,
    room: u32,
    code: &'e Code<Slot>,
    turns: &mut u32,
) -> Result<bool, Stop>
    requires { Fits context.now.functions.now code.now context.now.env.now T.Bool }
    ensures { Answers (truth_value (calls_of context.now.functions.now context.now.depth) code.now (world_of context.now.env.now) turns.old) result turns.new }
{
    let Some(room) = room.checked_sub(1) else {
        return Err(Stop::Memory);
    };
    match code {
        Code::Binary(operator, left, right) => {
            truth_of_two(context, room, *operator, left.get(), right.get(), turns)
        }
        Code::Unary(operators, operand) => {
            truth_inverted(context, room, operators.as_slice(), operand.get(), turns)
        }
        Code::Literal(value) => Ok(truth_of(value)),
        Code::IsMarker(marker) => Ok(is_marker(context.env, *marker)),
        Code::IsNotMarker(marker) => Ok(!is_marker(context.env, *marker)),
        _ => is_true(context, room, code, turns),
    }
}

/// Whether an operator between two operands holds. `&&` and `||` evaluate the right one only where it
/// counts.
#[cycle(truth)]
fn truth_of_two<'e>(
    context: &Context<'e>,
    room: u32,
    operator: BinaryCode,
    left: &'e Code<Slot>,
    right: &'e Code<Slot>,
    turns: &mut u32,
) -> Result<bool, Stop>
    requires { Fits context.now.functions.now (C.Binary operator left.now right.now) context.now.env.now T.Bool }
    ensures { Answers (truth_value (calls_of context.now.functions.now context.now.depth) (C.Binary operator left.now right.now) (world_of context.now.env.now) turns.old) result turns.new }
{
    match operator {
        BinaryCode::And => {
            if truth_at(context, room, left, turns)? {
                return truth_at(context, room, right, turns);
            }
            Ok(false)
        }
        BinaryCode::Or => {
            if truth_at(context, room, left, turns)? {
                return Ok(true);
            }
            truth_at(context, room, right, turns)
        }
        _ => match standing_relation(context, operator, left, right) {
            Some(holds) => Ok(holds),
            None => evaluated_relation(context, room, operator, left, right, turns),
        },
    }
}

/// Whether a condition holds, with the operators in front of it that invert it.
#[cycle(truth)]
fn truth_inverted<'e>(
    context: &Context<'e>,
    room: u32,
    operators: &'e [UnaryCode],
    operand: &'e Code<Slot>,
    turns: &mut u32,
) -> Result<bool, Stop>
    requires { Fits context.now.functions.now (C.Unary operators.now operand.now) context.now.env.now T.Bool }
    ensures { Answers (truth_value (calls_of context.now.functions.now context.now.depth) (C.Unary operators.now operand.now) (world_of context.now.env.now) turns.old) result turns.new }
{
    evaluation_law();
    let truth = truth_at(context, room, operand, turns)?;
    Ok(inverted(operators, truth))
}

/// What operators that invert a truth make of it.
fn inverted(operators: &[UnaryCode], truth: bool) -> bool
    requires { UnariesGive operators.now T.Bool T.Bool }
    ensures { (turns : ℕ) → unaries_of operators.now (V.Bool truth) turns ≡ Done (V.Bool result) turns }
{
    let mut inverted = truth;
    for _ in operators {
        inverted = !inverted;
    }
    inverted
}

/// Whether a relation between two operands holds, where neither has to be evaluated: each is a literal, a
/// variable or an attribute. Where it answers `None`, they are evaluated.
fn standing_relation<'e>(
    context: &Context<'e>,
    operator: BinaryCode,
    left: &'e Code<Slot>,
    right: &'e Code<Slot>,
) -> Option<bool>
    requires fits { Fits context.now.functions.now (C.Binary operator left.now right.now) context.now.env.now T.Bool }
    requires no_and { operator ≢ D.And }
    requires no_or { operator ≢ D.Or }
    ensures { IfSome result (λ holds. (turns : ℕ) → truth_value (calls_of context.now.functions.now context.now.depth) (C.Binary operator left.now right.now) (world_of context.now.env.now) turns ≡ Done holds turns) }
{
    evaluation_law();
    let first = standing(context, left)?;
    let second = standing(context, right)?;
    Some(are_related(operator, first, second))
}

/// Whether a relation between two operands that are evaluated holds.
#[inline(never)]
fn evaluated_relation<'e>(
    context: &Context<'e>,
    room: u32,
    operator: BinaryCode,
    left: &'e Code<Slot>,
    right: &'e Code<Slot>,
    turns: &mut u32,
) -> Result<bool, Stop>
    requires fits { Fits context.now.functions.now (C.Binary operator left.now right.now) context.now.env.now T.Bool }
    requires no_and { operator ≢ D.And }
    requires no_or { operator ≢ D.Or }
    ensures { Answers (truth_value (calls_of context.now.functions.now context.now.depth) (C.Binary operator left.now right.now) (world_of context.now.env.now) turns.old) result turns.new }
{
    evaluation_law();
    let left = eval_at(context, room, left, turns)?;
    let right = eval_at(context, room, right, turns);
    related_with(operator, left, right)
}

/// The value of a literal, a variable or an attribute, by a reference to where it is kept.
fn standing<'e>(context: &Context<'e>, code: &'e Code<Slot>) -> Option<&'e Value>
    requires { IsFit context.now.functions.now code.now context.now.env.now }
    ensures { IfSome result (λ v. (turns : ℕ) → code_value (calls_of context.now.functions.now context.now.depth) code.now (world_of context.now.env.now) turns ≡ Done v.now turns) }
{
    match code {
        Code::Literal(value) => Some(value),
        Code::Name(slot) => standing_value(context.env, *slot),
        _ => None,
    }
}
