//! The calls that the language has built in, on arguments where they stand.
ghost use Rattle.std.specs.Prelude.{[], ◌∷◌, ◌≡◌, ℕ, Ok};
ghost use Rattle.spl_value.specs.declared.value.Value.{Value};
ghost use Rattle.spl_value.specs.Calls.{Answers as CallAnswers, CallOutcome};
ghost use Rattle.language_model.specs.parts.BuiltInCalls.{built_in_of};
ghost use Rattle.language_model.specs.Outcomes.{Outcome, followed, settled};
ghost use Rattle.value_operations.specs.declared.held.Held.{Held};
ghost use Rattle.value_operations.specs.Answers.{Answers, AnswersHeld, Settles, held};
ghost use Rattle.value_operations.specs.Fitting.{FitBuiltIn};

use crate::held::{Held, stopped};
use crate::stop::Stop;
use builtin_calls::{abs, has, length, max, min, size, substring};
use spl_tree::BuiltIn;
use spl_value::{Evaluated, Value};
use std::alloc::Global;

/// What a call answered.
fn answered(answer: Evaluated) -> Result<Value, Stop>
    ensures { (outcome : CallOutcome) → CallAnswers answer outcome → Settles outcome result }
{
    match answer {
        Evaluated::Value(value) => Ok(value),
        Evaluated::Bad(kind) => Err(Stop::Fault(kind)),
        Evaluated::Memory => Err(Stop::Memory),
    }
}

fn one_argument(call: BuiltIn, first: &Value) -> Result<Value, Stop>
    requires { FitBuiltIn call (first.now ∷ []) }
    ensures { Settles (built_in_of call (first.now ∷ [])) result }
{
    match call {
        BuiltIn::Length => answered(length(first)),
        BuiltIn::Size => answered(size(first)),
        BuiltIn::Abs(kind) => answered(abs(first, kind)),
        BuiltIn::Has | BuiltIn::Min | BuiltIn::Max | BuiltIn::Substring => unreachable!(),
    }
}

fn two_arguments(alloc: Global, call: BuiltIn, first: &Value, second: &Value) -> Result<Value, Stop>
    requires { FitBuiltIn call (first.now ∷ second.now ∷ []) }
    ensures { Settles (built_in_of call (first.now ∷ second.now ∷ [])) result }
{
    match call {
        BuiltIn::Has => answered(has(first, second)),
        BuiltIn::Min => answered(min(alloc, first, second)),
        BuiltIn::Max => answered(max(alloc, first, second)),
        BuiltIn::Length | BuiltIn::Size | BuiltIn::Abs(_) | BuiltIn::Substring => unreachable!(),
    }
}

fn three_arguments(
    alloc: Global,
    call: BuiltIn,
    first: &Value,
    second: &Value,
    third: &Value,
) -> Result<Value, Stop>
    requires { FitBuiltIn call (first.now ∷ second.now ∷ third.now ∷ []) }
    ensures { Settles (built_in_of call (first.now ∷ second.now ∷ third.now ∷ [])) result }
{
    match call {
        BuiltIn::Substring => answered(substring(alloc, first, second, third)),
        _ => unreachable!(),
    }
}

/// A call with one argument, where that gave a value.
pub fn call_with_one(call: BuiltIn, first: Result<Held<'_>, Stop>) -> Result<Value, Stop>
    requires { (h : Held) → first ≡ Ok h → FitBuiltIn call (held h ∷ []) }
    ensures { (outcome : Outcome Value) (turns : ℕ) → AnswersHeld outcome first.entry turns
        → Answers (followed outcome (λ v left. settled (built_in_of call (v ∷ [])) left)) result turns }
{
    match first {
        Ok(first) => one_argument(call, first.value()),
        Err(stop) => Err(stop),
    }
}

/// A call with two arguments, where the second one gave a value.
pub fn call_with_two(
    alloc: Global,
    call: BuiltIn,
    first: Held<'_>,
    second: Result<Held<'_>, Stop>,
) -> Result<Value, Stop>
    requires { (h : Held) → second ≡ Ok h → FitBuiltIn call (held first ∷ held h ∷ []) }
    ensures { (outcome : Outcome Value) (turns : ℕ) → AnswersHeld outcome second.entry turns
        → Answers (followed outcome (λ v left. settled (built_in_of call (held first.entry ∷ v ∷ [])) left)) result turns }
{
    match second {
        Ok(second) => second_argument(alloc, call, first, second),
        Err(stop) => stopped(first, stop),
    }
}

fn second_argument(
    alloc: Global,
    call: BuiltIn,
    first: Held<'_>,
    second: Held<'_>,
) -> Result<Value, Stop>
    requires { FitBuiltIn call (held first ∷ held second ∷ []) }
    ensures { Settles (built_in_of call (held first.entry ∷ held second.entry ∷ [])) result }
{
    two_arguments(alloc, call, first.value(), second.value())
}

/// A call with three arguments, where the third one gave a value.
pub fn call_with_three(
    alloc: Global,
    call: BuiltIn,
    first: Held<'_>,
    second: Held<'_>,
    third: Result<Held<'_>, Stop>,
) -> Result<Value, Stop>
    requires { (h : Held) → third ≡ Ok h → FitBuiltIn call (held first ∷ held second ∷ held h ∷ []) }
    ensures { (outcome : Outcome Value) (turns : ℕ) → AnswersHeld outcome third.entry turns
        → Answers (followed outcome (λ v left. settled (built_in_of call (held first.entry ∷ held second.entry ∷ v ∷ [])) left)) result turns }
{
    match third {
        Ok(third) => third_argument(alloc, call, first, second, third),
        Err(stop) => stopped((first, second), stop),
    }
}

fn third_argument(
    alloc: Global,
    call: BuiltIn,
    first: Held<'_>,
    second: Held<'_>,
    third: Held<'_>,
) -> Result<Value, Stop>
    requires { FitBuiltIn call (held first ∷ held second ∷ held third ∷ []) }
    ensures { Settles (built_in_of call (held first.entry ∷ held second.entry ∷ held third.entry ∷ [])) result }
{
    three_arguments(alloc, call, first.value(), second.value(), third.value())
}
