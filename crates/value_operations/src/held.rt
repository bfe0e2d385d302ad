//! Values of their own, and values that stand elsewhere.
ghost use Rattle.std.specs.Prelude.{◌≡◌, ℕ, Err, IfOk, List};
ghost use Rattle.spl_value.specs.declared.value.Value.{Value};
ghost use Rattle.spl_value.specs.declared.value.Value.TheVariants as V;
ghost use Rattle.spl_value.specs.Calls.{CallOutcome};
ghost use Rattle.language_model.specs.Outcomes.{Outcome, Done, followed};
ghost use Rattle.value_operations.specs.Answers.{Answers, AnswersHeld, Evaluates, Settles, SettlesHeld, held};

use crate::stop::Stop;
use spl_value::{Evaluated, NoMemory, Pairs, Value, Values, copy_value};
use std::alloc::Global;

/// The value of an evaluation: one of its own, or one that stands in what is evaluated.
#[derive(Drop)]
pub enum Held<'e> {
    Own(Value),
    Lent(&'e Value),
}

impl<'e> Held<'e> {
    /// The value, where it stands.
    pub fn value(&self) -> &Value
        ensures { result.now ≡ held self.now }
    {
        match self {
            Held::Own(value) => value,
            Held::Lent(value) => value,
        }
    }

    /// The value as one of its own: a copy of it where it stands elsewhere.
    pub fn into_value(self, alloc: Global) -> Result<Value, NoMemory>
        ensures { IfOk result (λ v. v ≡ held self.entry) }
    {
        match self {
            Held::Own(value) => Ok(value),
            Held::Lent(value) => copy_value(alloc, value),
        }
    }
}

/// What an evaluation answers, by its result: a value of its own, or a fault.
pub fn evaluated(alloc: Global, answer: Result<Held<'_>, Stop>) -> Evaluated
    ensures { (outcome : Outcome Value) (turns : ℕ) → AnswersHeld outcome answer.entry turns → Evaluates outcome result turns }
{
    match answer {
        Ok(held) => match held.into_value(alloc) {
            Ok(value) => Evaluated::Value(value),
            Err(_) => Evaluated::Memory,
        },
        Err(Stop::Fault(kind)) => Evaluated::Bad(kind),
        Err(Stop::Memory) => Evaluated::Memory,
    }
}

/// A value that was made, as one that is held.
pub fn owned<'e>(value: Result<Value, Stop>) -> Result<Held<'e>, Stop>
    ensures settled { (outcome : CallOutcome) → Settles outcome value → SettlesHeld outcome result }
    ensures answered { (outcome : Outcome Value) (turns : ℕ) → Answers outcome value turns → AnswersHeld outcome result turns }
{
    match value {
        Ok(value) => Ok(Held::Own(value)),
        Err(stop) => Err(stop),
    }
}

/// The list of values that were made.
pub fn list_value<'e>(values: Result<Values, Stop>) -> Result<Held<'e>, Stop>
    ensures { (outcome : Outcome (List Value)) (turns : ℕ) → Answers outcome values turns
        → AnswersHeld (followed outcome (λ vs left. Done (V.List vs) left)) result turns }
{
    match values {
        Ok(values) => Ok(Held::Own(Value::List(values))),
        Err(stop) => Err(stop),
    }
}

/// The tuple of values that were made.
pub fn tuple_value<'e>(values: Result<Values, Stop>) -> Result<Held<'e>, Stop>
    ensures { (outcome : Outcome (List Value)) (turns : ℕ) → Answers outcome values turns
        → AnswersHeld (followed outcome (λ vs left. Done (V.Tuple vs) left)) result turns }
{
    match values {
        Ok(values) => Ok(Held::Own(Value::Tuple(values))),
        Err(stop) => Err(stop),
    }
}

/// The map of pairs that were made.
pub fn map_value<'e>(pairs: Result<Pairs, Stop>) -> Result<Held<'e>, Stop>
    ensures { (outcome : Outcome (List (Value × Value))) (turns : ℕ) → Answers outcome pairs turns
        → AnswersHeld (followed outcome (λ ps left. Done (V.Map ps) left)) result turns }
{
    match pairs {
        Ok(pairs) => Ok(Held::Own(Value::Map(pairs))),
        Err(stop) => Err(stop),
    }
}

/// Drops what was evaluated, where an evaluation after it stopped.
pub fn stopped<T: Drop>(_: T, stop: Stop) -> Result<Value, Stop>
    ensures { result ≡ Err stop }
{
    Err(stop)
}
