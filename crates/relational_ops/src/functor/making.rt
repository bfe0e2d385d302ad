//! The tuple that a Functor makes of one that came.
ghost use Rattle.std.specs.Prelude.{◌≡◌, ◌<◌, length};
ghost use Rattle.spl_value.specs.declared.types.SplType.TheVariants as T;
ghost use Rattle.language_model.specs.StreamTypes.{Attributes};
ghost use Rattle.language_model.specs.WorldFits.{Fits};
ghost use Rattle.stream_model.specs.Bodies.{made_where, most_turns, passes, tuple_by};
ghost use Rattle.port_reacts.specs.Evaluation.{PassesFit};
ghost use Rattle.expr_eval.specs.Moving.{MovesFit};
ghost use Rattle.value_operations.specs.Answers.{IsMadeAs, IsSo};
ghost use Rattle.relational_ops.specs.steps.Making.{MakesAs};

use crate::functor::Clauses;
use expr_eval::{Made, Truth, holds, tuple_moving};
use language_model::Env;
use port_reacts::{CheckedOperator, MOST_TURNS};
use spl_tree::{Code, Functions, Slot};
use spl_value::{FaultKind, Items, Values};
use std::alloc::Global;

/// What a Functor makes of a tuple.
#[derive(Drop)]
pub(crate) enum Mapped {
    To(Values),
    /// The condition doesn't hold.
    Dropped,
    Faulted(FaultKind),
    /// There was no memory.
    Memory,
}

/// Whether a condition holds, as an absent one does.
fn passes(
    alloc: Global,
    functions: &Functions,
    condition: &Option<Code<Slot>>,
    env: &Env,
    turns: &mut u32,
) -> Truth
    requires { PassesFit functions.now condition.now env.now }
    ensures { IsSo (passes functions.now condition.now env.now turns.old) result turns.new }
{
    match condition {
        Some(condition) => holds(alloc, functions, condition, env, turns),
        None => Truth::Is(true),
    }
}

/// How many values the tuple of a code has.
fn width(code: &Code<Slot>) -> usize {
    match code {
        Code::Tuple(fields) => fields.len(),
        _ => 0,
    }
}

/// The tuple of the code, made in a list of its length.
fn made(
    alloc: Global,
    functions: &Functions,
    output: &Code<Slot>,
    moves: &[Option<u32>],
    env: &mut Env,
    turns: &mut u32,
) -> Made
    requires fit { (schema : Attributes) × Fits functions.now output.now env.old (T.Tuple schema) }
    requires moves { MovesFit output.now moves.now }
    requires came { 0 < length env.old.inputs }
    ensures made { IsMadeAs (tuple_by functions.now output.now env.old turns.old) result turns.new }
    ensures vars { env.new.vars ≡ env.old.vars }
    ensures punct { env.new.punct ≡ env.old.punct }
{
    match Items::with_capacity(alloc, width(output)) {
        Ok(room) => tuple_moving(alloc, functions, output, moves, env, turns, room),
        Err(_) => Made::Memory,
    }
}

/// What is made where the tuple has come: first the condition is evaluated, and then the output. The tuple
/// isn't used any more.
pub(crate) fn map_tuple(
    alloc: Global,
    at: &CheckedOperator<'_>,
    clauses: &Clauses<'_>,
    env: &mut Env,
) -> Mapped
    requires condition { PassesFit at.now.checked.now.functions clauses.now.condition.now env.old }
    requires output { (schema : Attributes) × Fits at.now.checked.now.functions clauses.now.output.now env.old (T.Tuple schema) }
    requires moves { MovesFit clauses.now.output.now clauses.now.moves }
    requires came { 0 < length env.old.inputs }
    ensures made { MakesAs (made_where at.now.checked.now.functions clauses.now.condition.now clauses.now.output.now env.old most_turns) result }
    ensures vars { env.new.vars ≡ env.old.vars }
    ensures punct { env.new.punct ≡ env.old.punct }
{
    let functions = at.functions();
    let moves = clauses.moves.as_slice();
    let mut turns = MOST_TURNS;
    match passes(alloc, functions, clauses.condition, env, &mut turns) {
        Truth::Is(true) => match made(alloc, functions, clauses.output, moves, env, &mut turns) {
            Made::Tuple(values) => Mapped::To(values),
            Made::Bad(kind) => Mapped::Faulted(kind),
            Made::Memory => Mapped::Memory,
        },
        Truth::Is(false) => Mapped::Dropped,
        Truth::Bad(kind) => Mapped::Faulted(kind),
        Truth::Memory => Mapped::Memory,
    }
}
