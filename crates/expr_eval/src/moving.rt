//! The tuples that codes evaluate to, with attributes moved there from the tuple that came.
ghost use Rattle.std.specs.Prelude.{◌≡◌, ◌<◌, List, Some, length, slice_get, slice_set};
ghost use Rattle.spl_value.specs.declared.types.Named.{Named};
ghost use Rattle.spl_value.specs.declared.types.SplType.{SplType};
ghost use Rattle.spl_value.specs.declared.types.SplType.TheVariants as T;
ghost use Rattle.spl_value.specs.declared.value.Value.{Value as V};
ghost use Rattle.spl_value.specs.declared.value.Value.TheViews.{out-Value};
ghost use Rattle.spl_tree.specs.declared.code.Code.TheVariants as C;
ghost use Rattle.language_model.specs.Evaluation.{tuple_of, world_of};
ghost use Rattle.language_model.specs.EvaluationLaws.{field_values};
ghost use Rattle.language_model.specs.Functions.{value};
ghost use Rattle.language_model.specs.parts.Functions.{calls_of};
ghost use Rattle.language_model.specs.Outcomes.{Done, followed, need};
ghost use Rattle.language_model.specs.Statements.{level_tuple};
ghost use Rattle.language_model.specs.WorldFits.{Fits};
ghost use Rattle.value_operations.specs.Answers.{IsMadeAs};
ghost use Rattle.expr_eval.specs.Fitting.{IsFit};
ghost use Rattle.expr_eval.specs.Moving.{AreMoves, MovesFit};
ghost use Rattle.expr_eval.specs.steps.MovedFields.{AnswersBut, AreBut, GoTo};

use crate::context::Context;
use crate::evaluate::own_value;
use crate::tuple::tuple_into;
use evaluation_laws::evaluation_law;
use language_model::Env;
use spl_tree::{Code, Functions, MOST_EVALUATED, Slot};
use spl_value::{Value, Values};
use std::alloc::Global;
use std::mem;
use value_operations::{Made, Stop, blanks, made};

/// The tuple that a code evaluates to in an environment, or its fault, as `tuple_into` answers it.
///
/// The attributes that `moves` has for the fields are moved there from the tuple at the first port, after the
/// evaluation of all other fields, and aren't copied. So that tuple isn't used any more.
pub fn tuple_moving(
    alloc: Global,
    functions: &Functions,
    code: &Code<Slot>,
    moves: &[Option<u32>],
    env: &mut Env,
    turns: &mut u32,
    room: Values,
) -> Made
    requires fits { (schema : List (Named SplType)) × Fits functions.now code.now env.old (T.Tuple schema) }
    requires moves { MovesFit code.now moves.now }
    requires came { 0 < length env.old.inputs }
    ensures made { IsMadeAs (followed (value functions.now code.now (world_of env.old) turns.old) (λ v turns. need (level_tuple (out-Value v)) (λ vs. Done vs turns))) result turns.new }
    ensures vars { env.new.vars ≡ env.old.vars }
    ensures punct { env.new.punct ≡ env.old.punct }
{
    evaluation_law();
    let Code::Tuple(fields) = code else {
        return tuple_into(alloc, functions, code, env, turns, room);
    };
    let fields = fields.as_slice();
    match fields_but_moved(alloc, functions, fields, moves, env, turns, room) {
        Ok(values) => {
            let came = env.inputs.item_mut(0);
            Made::Tuple(with_moved(values, came, fields, moves))
        }
        Err(stop) => made(Err(stop)),
    }
}

/// The values of the fields to which nothing is moved, in the room of a list.
fn fields_but_moved(
    alloc: Global,
    functions: &Functions,
    fields: &[(u32, Code<Slot>)],
    moves: &[Option<u32>],
    env: &Env,
    turns: &mut u32,
    room: Values,
) -> Result<Values, Stop>
    requires fit { IsFit functions.now (C.Tuple fields.now) env.now }
    requires moves { AreMoves fields.now moves.now }
    requires came { 0 < length env.now.inputs }
    ensures { AnswersBut fields.now moves.now (followed (field_values (calls_of functions.now turns.old) fields.now (world_of env.now) turns.old) (λ gs left. need (tuple_of gs) (λ vs. Done vs left))) result turns.new }
{
    evaluation_law();
    let context = Context::new(alloc, functions, env, *turns);
    let mut values = blanks(room, fields.len())?;
    for (i, field) in fields.iter().enumerate() {
        if let Some(_) = moves[i] {
            continue;
        }
        let value = own_value(&context, MOST_EVALUATED, &field.1, turns)?;
        values.set(field.0 as usize, value);
    }
    Ok(values)
}

/// The values, with the others moved there from the tuple that came.
fn with_moved(
    values: Values,
    came: &mut Values,
    fields: &[(u32, Code<Slot>)],
    moves: &[Option<u32>],
) -> Values
    requires moves { AreMoves fields.now moves.now }
    requires there { (tuple : List V) × AreBut fields.now moves.now 0 values tuple × GoTo fields.now moves.now came.old tuple }
    ensures { (tuple : List V) → AreBut fields.now moves.now 0 values tuple → GoTo fields.now moves.now came.old tuple → result ≡ tuple }
{
    let mut values = values;
    for (i, field) in fields.iter().enumerate() {
        let Some(attribute) = moves[i] else {
            continue;
        };
        move_value(&mut values, field.0, came, attribute);
    }
    values
}

/// Moves the value at a place of the tuple that came to a place of the other one.
fn move_value(values: &mut Values, place: u32, came: &mut Values, attribute: u32)
    requires place { place < length values.old }
    requires attribute { attribute < length came.old }
    ensures moved { (v : V) × (slice_get came.old attribute ≡ Some v) × (values.new ≡ slice_set values.old place v) }
    ensures left { (v : V) × (came.new ≡ slice_set came.old attribute v) }
{
    let value = came.item_mut(attribute as usize);
    values.set(place as usize, mem::replace(value, Value::Bool(false)));
}
