//! What is made of what evaluations answered.
ghost use Rattle.std.specs.Prelude.{◌≡◌, ℕ, IsTrue, List, None, Ok, Option, Some};
ghost use Rattle.spl_value.specs.declared.types.SplType.TheVariants as T;
ghost use Rattle.spl_value.specs.declared.value.Value.{Value};
ghost use Rattle.spl_value.specs.Pairs.{are_pairs};
ghost use Rattle.spl_value.specs.Values.{fits};
ghost use Rattle.spl_tree.specs.declared.body.Change.TheVariants as H;
ghost use Rattle.spl_tree.specs.declared.code.Selector.{Selector};
ghost use Rattle.spl_tree.specs.declared.code.Selector.TheVariants as K;
ghost use Rattle.language_model.specs.Outcomes.{Outcome, Done, followed, need};
ghost use Rattle.value_operations.specs.declared.held.Held.{Held};
ghost use Rattle.value_operations.specs.Answers.{Answers, AnswersHeld, as_truth, held};
ghost use Rattle.value_operations.specs.Taking.{StepFits};
ghost use Rattle.expr_eval.specs.steps.Answered.{Adds, Puts, Takes};

use spl_tree::{Change, Selector};
use spl_value::{Items, Pairs, Value};
use std::alloc::Global;
use value_operations::{Held, Stop, take_step, truth_of};

/// What was evaluated, as a value of its own.
pub(crate) fn own(alloc: Global, answer: Result<Held<'_>, Stop>) -> Result<Value, Stop>
    ensures { (outcome : Outcome Value) (turns : ℕ) → AnswersHeld outcome answer.entry turns → Answers outcome result turns }
{
    match answer {
        Ok(held) => match held.into_value(alloc) {
            Ok(value) => Ok(value),
            Err(_) => Err(Stop::Memory),
        },
        Err(stop) => Err(stop),
    }
}

/// The truth of a boolean that was evaluated.
pub(crate) fn truth_held(answer: Result<Held<'_>, Stop>) -> Result<bool, Stop>
    requires { (h : Held) → answer ≡ Ok h → IsTrue (fits T.Bool (held h)) }
    ensures { (outcome : Outcome Value) (turns : ℕ) → AnswersHeld outcome answer.entry turns → Answers (as_truth outcome) result turns }
{
    match answer {
        Ok(held) => Ok(truth_of(held.value())),
        Err(stop) => Err(stop),
    }
}

/// The value that a call returned, which is there.
pub(crate) fn value_returned<'e>(answer: Result<Option<Value>, Stop>) -> Result<Held<'e>, Stop>
    requires { answer ≡ Ok None → ⊥ }
    ensures { (outcome : Outcome (Option Value)) (turns : ℕ) → Answers outcome answer turns
        → AnswersHeld (followed outcome (λ returned left. need returned (λ v. Done v left))) result turns }
{
    match answer {
        Ok(returned) => Ok(Held::Own(there(returned))),
        Err(stop) => Err(stop),
    }
}

/// A value that is there.
fn there(value: Option<Value>) -> Value
    requires { value ≡ None → ⊥ }
    ensures { value ≡ Some result }
{
    match value {
        Some(value) => value,
        None => unreachable!(),
    }
}

/// Adds what was evaluated after the items of a list.
pub(crate) fn add<T: Drop>(items: &mut Items<T>, answer: Result<T, Stop>) -> Result<(), Stop>
    ensures { (outcome : Outcome T) (turns : ℕ) → Answers outcome answer turns → Adds outcome result items.old items.new turns }
{
    match answer {
        Ok(item) => {
            items.push(item)?;
            Ok(())
        }
        Err(stop) => Err(stop),
    }
}

/// Puts a value that was evaluated at a key of a map, in place of one that is there.
pub(crate) fn put_at_key(
    map: &mut Pairs,
    key: Value,
    answer: Result<Value, Stop>,
) -> Result<(), Stop>
    requires { IsTrue (are_pairs map.old) }
    ensures { (outcome : Outcome Value) (turns : ℕ) → Answers outcome answer turns → Puts outcome result key map.old map.new turns }
{
    match answer {
        Ok(value) => {
            map.put(key, value)?;
            Ok(())
        }
        Err(stop) => Err(stop),
    }
}

/// The step to an element, by its index.
pub(crate) fn element_step(index: Result<Value, Stop>) -> Result<Selector<Value>, Stop>
    ensures { (outcome : Outcome Value) (turns : ℕ) → Answers outcome index turns
        → Answers (followed outcome (λ v left. Done (K.Element v) left)) result turns }
{
    match index {
        Ok(index) => Ok(Selector::Element(index)),
        Err(stop) => Err(stop),
    }
}

/// The step to the value at a key.
pub(crate) fn key_step(key: Result<Value, Stop>) -> Result<Selector<Value>, Stop>
    ensures { (outcome : Outcome Value) (turns : ℕ) → Answers outcome key turns
        → Answers (followed outcome (λ v left. Done (K.AtKey v) left)) result turns }
{
    match key {
        Ok(key) => Ok(Selector::AtKey(key)),
        Err(stop) => Err(stop),
    }
}

/// Takes a step that was evaluated of a value, and adds it after those that were taken.
pub(crate) fn take_next<'e>(
    value: Held<'e>,
    answer: Result<Selector<Value>, Stop>,
    steps: &mut Items<Selector<Value>>,
) -> Result<Held<'e>, Stop>
    requires { (step : Selector Value) → answer ≡ Ok step → StepFits step (held value) }
    ensures { (outcome : Outcome (Selector Value)) (turns : ℕ) → Answers outcome answer turns → Takes outcome result (held value.entry) steps.old steps.new turns }
{
    match answer {
        Ok(step) => take_step(value, step, steps),
        Err(stop) => Err(stop),
    }
}

type Changed = (Items<Selector<Value>>, Change<Value>);

/// The steps of an assignment, with what is assigned.
pub(crate) fn with_put(
    steps: Result<Items<Selector<Value>>, Stop>,
    value: Value,
) -> Result<Changed, Stop>
    ensures { (outcome : Outcome (List (Selector Value))) (turns : ℕ) → Answers outcome steps turns
        → Answers (followed outcome (λ steps left. Done (steps, H.Put value) left)) result turns }
{
    match steps {
        Ok(steps) => Ok((steps, Change::Put(value))),
        Err(stop) => Err(stop),
    }
}

/// The steps to a list, with what is added to it.
pub(crate) fn with_append(
    steps: Items<Selector<Value>>,
    value: Result<Value, Stop>,
) -> Result<Changed, Stop>
    ensures { (outcome : Outcome Value) (turns : ℕ) → Answers outcome value turns
        → Answers (followed outcome (λ v left. Done (steps, H.Append v) left)) result turns }
{
    match value {
        Ok(value) => Ok((steps, Change::Append(value))),
        Err(stop) => Err(stop),
    }
}

/// The steps to a map, with the key that is taken out of it.
pub(crate) fn with_remove(
    steps: Items<Selector<Value>>,
    key: Result<Value, Stop>,
) -> Result<Changed, Stop>
    ensures { (outcome : Outcome Value) (turns : ℕ) → Answers outcome key turns
        → Answers (followed outcome (λ v left. Done (steps, H.Remove v) left)) result turns }
{
    match key {
        Ok(key) => Ok((steps, Change::Remove(key))),
        Err(stop) => Err(stop),
    }
}

/// The steps to what is cleared.
pub(crate) fn with_clear(steps: Result<Items<Selector<Value>>, Stop>) -> Result<Changed, Stop>
    ensures { (outcome : Outcome (List (Selector Value))) (turns : ℕ) → Answers outcome steps turns
        → Answers (followed outcome (λ steps left. Done (steps, H.Clear) left)) result turns }
{
    match steps {
        Ok(steps) => Ok((steps, Change::Clear)),
        Err(stop) => Err(stop),
    }
}
