//! The value of a code, by a call for each form of code.
ghost use Rattle.std.specs.Prelude.{◌≡◌, ◌∷◌, []};
ghost use Rattle.spl_value.specs.declared.types.SplType.TheVariants as T;
ghost use Rattle.spl_tree.specs.declared.code.Code.TheVariants as C;
ghost use Rattle.language_model.specs.Outcomes.{Done, followed, need, settled};
ghost use Rattle.language_model.specs.parts.BuiltInCalls.{built_in_of};
ghost use Rattle.language_model.specs.Evaluation.{code_value, world_of, binary, taken, tuple_of};
ghost use Rattle.language_model.specs.parts.Evaluation.{map_of};
ghost use Rattle.language_model.specs.Functions.{value};
ghost use Rattle.language_model.specs.parts.Functions.{calls_of};
ghost use Rattle.language_model.specs.EvaluationLaws.{values_of, field_values, taking_meaning, truth_value};
ghost use Rattle.language_model.specs.WorldFits.{Fits};
ghost use Rattle.value_operations.specs.Answers.{Answers, AnswersHeld, Evaluates, held};
ghost use Rattle.expr_eval.specs.Fitting.{IsFit, AreFit, PairsAreFit, FitTakings};

use crate::answered::{add, own, put_at_key, truth_held, value_returned};
use crate::context::Context;
use crate::run::run_function;
use evaluation_laws::evaluation_law;
use language_model::Env;
use spl_tree::{BinaryCode, BuiltIn, Code, Functions, MOST_EVALUATED, Selector, Slot, UnaryCode};
use spl_value::{Evaluated, Items, SegmentedList, Value, Values};
use std::alloc::Global;
use value_operations::{
    Held, Stop, blanks, call_with_one, call_with_three, call_with_two, element_at, evaluated,
    is_marker, list_value, member, operator_with, owned, slot_value, stopped, tuple_value,
    unaries_of, value_at,
};

/// The value of a code in an environment, or its fault, with the turns that are left.
///
/// Each call of a function takes a turn, and the fault `Turns` comes where none is left. `Memory` is
/// also the answer to codes and statements that nest deeper than `MOST_EVALUATED`.
pub fn eval(
    alloc: Global,
    functions: &Functions,
    code: &Code<Slot>,
    env: &Env,
    turns: &mut u32,
) -> Evaluated
    requires { IsFit functions.now code.now env.now }
    ensures { Evaluates (value functions.now code.now (world_of env.now) turns.old) result turns.new }
{
    let context = Context::new(alloc, functions, env, *turns);
    evaluated(alloc, eval_at(&context, MOST_EVALUATED, code, turns))
}

/// The value of a code, where codes may nest `room` deep.
#[cycle(eval)]
pub(crate) fn eval_at<'e>(
    context: &Context<'e>,
    room: u32,
    code: &'e Code<Slot>,
    turns: &mut u32,
) -> Result<Held<'e>, Stop>
    requires { IsFit context.now.functions.now code.now context.now.env.now }
    ensures { AnswersHeld (code_value (calls_of context.now.functions.now context.now.depth) code.now (world_of context.now.env.now) turns.old) result turns.new }
{
    let Some(room) = room.checked_sub(1) else {
        return Err(Stop::Memory);
    };
    match code {
        Code::Literal(value) => Ok(Held::Lent(value)),
        Code::Name(slot) => slot_value(context.alloc, context.env, *slot),
        Code::Select(base, takings) => {
            select(context, room, base.get(), takings.as_slice(), turns)
        }
        Code::Unary(operators, operand) => {
            unary(context, room, operators.as_slice(), operand.get(), turns)
        }
        Code::Binary(operator, left, right) => {
            binary(context, room, *operator, left.get(), right.get(), turns)
        }
        Code::Conditional(condition, first, second) => {
            conditional(
                context,
                room,
                condition.get(),
                first.get(),
                second.get(),
                turns,
            )
        }
        Code::List(codes) => list(context, room, codes.as_slice(), turns),
        Code::Map(pairs) => map(context, room, pairs.as_slice(), turns),
        Code::Tuple(fields) => tuple(context, room, fields.as_slice(), turns),
        Code::BuiltIn(call, codes) => built_in(context, room, *call, codes.as_slice(), turns),
        Code::Call(place, codes) => call(context, room, *place, codes.as_slice(), turns),
        Code::IsMarker(marker) => Ok(Held::Own(Value::Bool(is_marker(context.env, *marker)))),
        Code::IsNotMarker(marker) => Ok(Held::Own(Value::Bool(!is_marker(context.env, *marker)))),
    }
}

/// What is taken of the value of a code.
#[inline(never)]
#[cycle(eval)]
fn select<'e>(
    context: &Context<'e>,
    room: u32,
    base: &'e Code<Slot>,
    takings: &'e [Selector<Code<Slot>>],
    turns: &mut u32,
) -> Result<Held<'e>, Stop>
    requires { IsFit context.now.functions.now (C.Select base.now takings.now) context.now.env.now }
    ensures { AnswersHeld (code_value (calls_of context.now.functions.now context.now.depth) (C.Select base.now takings.now) (world_of context.now.env.now) turns.old) result turns.new }
{
    evaluation_law();
    let first = eval_at(context, room, base, turns)?;
    let mut value = first;
    for taking in takings {
        value = taken(context, room, taking, value, turns)?;
    }
    Ok(value)
}

/// Operators and casts in front of an operand.
#[inline(never)]
#[cycle(eval)]
fn unary<'e>(
    context: &Context<'e>,
    room: u32,
    operators: &'e [UnaryCode],
    operand: &'e Code<Slot>,
    turns: &mut u32,
) -> Result<Held<'e>, Stop>
    requires { IsFit context.now.functions.now (C.Unary operators.now operand.now) context.now.env.now }
    ensures { AnswersHeld (code_value (calls_of context.now.functions.now context.now.depth) (C.Unary operators.now operand.now) (world_of context.now.env.now) turns.old) result turns.new }
{
    evaluation_law();
    let operand = eval_at(context, room, operand, turns)?;
    unaries_of(context.alloc, operators, operand)
}

/// The first of two codes where a condition is true, or else the second.
#[inline(never)]
#[cycle(eval)]
fn conditional<'e>(
    context: &Context<'e>,
    room: u32,
    condition: &'e Code<Slot>,
    first: &'e Code<Slot>,
    second: &'e Code<Slot>,
    turns: &mut u32,
) -> Result<Held<'e>, Stop>
    requires { IsFit context.now.functions.now (C.Conditional condition.now first.now second.now) context.now.env.now }
    ensures { AnswersHeld (code_value (calls_of context.now.functions.now context.now.depth) (C.Conditional condition.now first.now second.now) (world_of context.now.env.now) turns.old) result turns.new }
{
    if is_true(context, room, condition, turns)? {
        eval_at(context, room, first, turns)
    } else {
        eval_at(context, room, second, turns)
    }
}

/// The list of the values of codes.
#[inline(never)]
#[cycle(eval)]
fn list<'e>(
    context: &Context<'e>,
    room: u32,
    codes: &'e [Code<Slot>],
    turns: &mut u32,
) -> Result<Held<'e>, Stop>
    requires { IsFit context.now.functions.now (C.List codes.now) context.now.env.now }
    ensures { AnswersHeld (code_value (calls_of context.now.functions.now context.now.depth) (C.List codes.now) (world_of context.now.env.now) turns.old) result turns.new }
{
    list_value(eval_all(context, room, codes, turns))
}

/// The map of the values of pairs: of those with one key the last counts.
#[inline(never)]
#[cycle(eval)]
fn map<'e>(
    context: &Context<'e>,
    room: u32,
    pairs: &'e [(Code<Slot>, Code<Slot>)],
    turns: &mut u32,
) -> Result<Held<'e>, Stop>
    requires { IsFit context.now.functions.now (C.Map pairs.now) context.now.env.now }
    ensures { AnswersHeld (code_value (calls_of context.now.functions.now context.now.depth) (C.Map pairs.now) (world_of context.now.env.now) turns.old) result turns.new }
{
    let mut made = SegmentedList::new(context.alloc);
    for pair in pairs {
        let key = own_value(context, room, &pair.0, turns)?;
        put_at_key(&mut made, key, own_value(context, room, &pair.1, turns))?;
    }
    Ok(Held::Own(Value::Map(made)))
}

/// The tuple of the values of fields.
#[inline(never)]
#[cycle(eval)]
fn tuple<'e>(
    context: &Context<'e>,
    room: u32,
    fields: &'e [(u32, Code<Slot>)],
    turns: &mut u32,
) -> Result<Held<'e>, Stop>
    requires { IsFit context.now.functions.now (C.Tuple fields.now) context.now.env.now }
    ensures { AnswersHeld (code_value (calls_of context.now.functions.now context.now.depth) (C.Tuple fields.now) (world_of context.now.env.now) turns.old) result turns.new }
{
    let list = Items::new(context.alloc);
    tuple_value(eval_fields(context, room, list, fields, turns))
}

/// What a call that the language has built in gives. Its arguments are read where they stand.
#[inline(never)]
#[cycle(eval)]
fn built_in<'e>(
    context: &Context<'e>,
    room: u32,
    call: BuiltIn,
    codes: &'e [Code<Slot>],
    turns: &mut u32,
) -> Result<Held<'e>, Stop>
    requires { IsFit context.now.functions.now (C.BuiltIn call codes.now) context.now.env.now }
    ensures { AnswersHeld (code_value (calls_of context.now.functions.now context.now.depth) (C.BuiltIn call codes.now) (world_of context.now.env.now) turns.old) result turns.new }
{
    evaluation_law();
    match codes {
        [first] => {
            let first = eval_at(context, room, first, turns);
            owned(call_with_one(call, first))
        }
        [first, second] => {
            let first = eval_at(context, room, first, turns)?;
            let second = eval_at(context, room, second, turns);
            owned(call_with_two(context.alloc, call, first, second))
        }
        [first, second, third] => {
            let first = eval_at(context, room, first, turns)?;
            match eval_at(context, room, second, turns) {
                Ok(second) => {
                    let third = eval_at(context, room, third, turns);
                    owned(call_with_three(context.alloc, call, first, second, third))
                }
                Err(stop) => owned(stopped(first, stop)),
            }
        }
        _ => unreachable!(),
    }
}

/// What a function gives for the values of codes.
#[inline(never)]
#[cycle(eval)]
fn call<'e>(
    context: &Context<'e>,
    room: u32,
    place: u32,
    codes: &'e [Code<Slot>],
    turns: &mut u32,
) -> Result<Held<'e>, Stop>
    requires { IsFit context.now.functions.now (C.Call place codes.now) context.now.env.now }
    ensures { AnswersHeld (code_value (calls_of context.now.functions.now context.now.depth) (C.Call place codes.now) (world_of context.now.env.now) turns.old) result turns.new }
{
    evaluation_law();
    let values = eval_all(context, room, codes, turns)?;
    value_returned(run_function(context, room, place, values, turns))
}

/// The value of a code, as one of its own.
#[cycle(eval)]
pub(crate) fn own_value<'e>(
    context: &Context<'e>,
    room: u32,
    code: &'e Code<Slot>,
    turns: &mut u32,
) -> Result<Value, Stop>
    requires { IsFit context.now.functions.now code.now context.now.env.now }
    ensures { Answers (code_value (calls_of context.now.functions.now context.now.depth) code.now (world_of context.now.env.now) turns.old) result turns.new }
{
    own(context.alloc, eval_at(context, room, code, turns))
}

/// The values of codes, from left to right.
#[cycle(eval)]
pub(crate) fn eval_all<'e>(
    context: &Context<'e>,
    room: u32,
    codes: &'e [Code<Slot>],
    turns: &mut u32,
) -> Result<Values, Stop>
    requires { AreFit context.now.functions.now codes.now context.now.env.now }
    ensures { Answers (values_of (calls_of context.now.functions.now context.now.depth) codes.now (world_of context.now.env.now) turns.old) result turns.new }
{
    let mut values = Items::new(context.alloc);
    for code in codes {
        add(&mut values, own_value(context, room, code, turns))?;
    }
    Ok(values)
}

/// The tuple of the values of fields, which are evaluated in the order of the text, in the room of a list
/// whose values are let go of.
#[cycle(eval)]
pub(crate) fn eval_fields<'e>(
    context: &Context<'e>,
    room: u32,
    list: Values,
    fields: &'e [(u32, Code<Slot>)],
    turns: &mut u32,
) -> Result<Values, Stop>
    requires { IsFit context.now.functions.now (C.Tuple fields.now) context.now.env.now }
    ensures { Answers (followed (field_values (calls_of context.now.functions.now context.now.depth) fields.now (world_of context.now.env.now) turns.old) (λ gs left. need (tuple_of gs) (λ vs. Done vs left))) result turns.new }
{
    evaluation_law();
    let mut values = blanks(list, fields.len())?;
    for field in fields {
        let value = own_value(context, room, &field.1, turns)?;
        values.set(field.0 as usize, value);
    }
    Ok(values)
}

/// What one taking gives of a value.
#[cycle(eval)]
fn taken<'e>(
    context: &Context<'e>,
    room: u32,
    taking: &'e Selector<Code<Slot>>,
    value: Held<'e>,
    turns: &mut u32,
) -> Result<Held<'e>, Stop>
    requires { FitTakings context.now.functions.now (taking.now ∷ []) context.now.env.now (held value) }
    ensures { AnswersHeld (taken (taking_meaning (calls_of context.now.functions.now context.now.depth) taking.now) (held value.entry) (world_of context.now.env.now) turns.old) result turns.new }
{
    evaluation_law();
    match taking {
        Selector::Member(place) => Ok(member(value, *place)),
        Selector::Element(index) => {
            let index = eval_at(context, room, index, turns);
            element_at(value, index)
        }
        Selector::AtKey(key) => {
            let key = eval_at(context, room, key, turns);
            value_at(value, key)
        }
    }
}

/// Whether a code is true.
#[cycle(eval)]
pub(crate) fn is_true<'e>(
    context: &Context<'e>,
    room: u32,
    code: &'e Code<Slot>,
    turns: &mut u32,
) -> Result<bool, Stop>
    requires { Fits context.now.functions.now code.now context.now.env.now T.Bool }
    ensures { Answers (truth_value (calls_of context.now.functions.now context.now.depth) code.now (world_of context.now.env.now) turns.old) result turns.new }
{
    evaluation_law();
    truth_held(eval_at(context, room, code, turns))
}

/// An operator between two operands. `&&` and `||` evaluate the right one only where it counts.
#[inline(never)]
#[cycle(eval)]
fn binary<'e>(
    context: &Context<'e>,
    room: u32,
    operator: BinaryCode,
    left: &'e Code<Slot>,
    right: &'e Code<Slot>,
    turns: &mut u32,
) -> Result<Held<'e>, Stop>
    requires { IsFit context.now.functions.now (C.Binary operator left.now right.now) context.now.env.now }
    ensures { AnswersHeld (binary operator (code_value (calls_of context.now.functions.now context.now.depth) left.now) (code_value (calls_of context.now.functions.now context.now.depth) right.now) (world_of context.now.env.now) turns.old) result turns.new }
{
    evaluation_law();
    match operator {
        BinaryCode::And => {
            if is_true(context, room, left, turns)? {
                return eval_at(context, room, right, turns);
            }
            Ok(Held::Own(Value::Bool(false)))
        }
        BinaryCode::Or => {
            if is_true(context, room, left, turns)? {
                return Ok(Held::Own(Value::Bool(true)));
            }
            eval_at(context, room, right, turns)
        }
        _ => {
            let left = eval_at(context, room, left, turns)?;
            let right = eval_at(context, room, right, turns);
            operator_with(context.alloc, operator, left, right)
        }
    }
}
