//! What is taken of a value.
ghost use Rattle.std.specs.Prelude.{◌≡◌, ◌++◌, ◌∷◌, [], ℕ, Ok, Err, MatchResult, slice_get};
ghost use Rattle.spl_value.specs.declared.value.Value.{Value};
ghost use Rattle.spl_value.specs.declared.value.Value.TheViews.{out-Value};
ghost use Rattle.spl_value.specs.Calls.{Gives};
ghost use Rattle.language_model.specs.Operators.{level_member, level_element, level_at_key};
ghost use Rattle.language_model.specs.Changes.{step_of};
ghost use Rattle.language_model.specs.Outcomes.{Outcome, followed, settled};
ghost use Rattle.value_operations.specs.declared.held.Held.{Held};
ghost use Rattle.value_operations.specs.Answers.{AnswersHeld, SettlesHeld, held};
ghost use Rattle.value_operations.specs.Taking.{HasMember, HasElements, HasKeys, StepFits};

use crate::held::{Held, owned, stopped};
use crate::stop::Stop;
use spl_tree::Selector;
use spl_value::{FaultKind, Items, Value, Values};

/// The attribute of a tuple at a place, from 0.
pub fn member(tuple: Held<'_>, place: u32) -> Held<'_>
    requires { HasMember place (held tuple) }
    ensures { level_member place (out-Value (held tuple.entry)) ≡ Gives (held result) }
{
    match tuple {
        Held::Own(value) => {
            let Some(mut values) = value.into_tuple() else {
                unreachable!()
            };
            Held::Own(values.remove(place as usize))
        }
        Held::Lent(value) => {
            let Value::Tuple(values) = value else {
                unreachable!()
            };
            Held::Lent(&values.as_slice()[place as usize])
        }
    }
}

/// The element of a list at an index from 0.
fn element<'e>(list: Held<'e>, index: &Value) -> Result<Held<'e>, Stop>
    requires { HasElements (held list) index.now }
    ensures { SettlesHeld (level_element (out-Value (held list.entry)) (out-Value index.now)) result }
{
    let Value::Int(index) = index else {
        unreachable!()
    };
    let Ok(at) = usize::try_from(*index) else {
        return Err(Stop::Fault(FaultKind::Index));
    };
    match list {
        Held::Own(value) => {
            let Some(values) = value.into_list() else {
                unreachable!()
            };
            match taken_out(values, at) {
                Some(value) => Ok(Held::Own(value)),
                None => Err(Stop::Fault(FaultKind::Index)),
            }
        }
        Held::Lent(value) => {
            let Value::List(values) = value else {
                unreachable!()
            };
            match values.get(at) {
                Some(value) => Ok(Held::Lent(value)),
                None => Err(Stop::Fault(FaultKind::Index)),
            }
        }
    }
}

/// The value at a place of a list, taken out of it.
fn taken_out(mut values: Values, at: usize) -> Option<Value>
    ensures { result ≡ slice_get values at }
{
    if at < values.len() {
        Some(values.remove(at))
    } else {
        None
    }
}

/// The element of a list, where its index gave a value.
pub fn element_at<'e>(list: Held<'e>, index: Result<Held<'e>, Stop>) -> Result<Held<'e>, Stop>
    requires { (h : Held) → index ≡ Ok h → HasElements (held list) (held h) }
    ensures { (outcome : Outcome Value) (turns : ℕ) → AnswersHeld outcome index.entry turns
        → AnswersHeld (followed outcome (λ v left. settled (level_element (out-Value (held list.entry)) (out-Value v)) left)) result turns }
{
    match index {
        Ok(index) => element(list, index.value()),
        Err(stop) => owned(stopped(list, stop)),
    }
}

/// The value of a map, where its key gave a value.
pub fn value_at<'e>(map: Held<'e>, key: Result<Held<'e>, Stop>) -> Result<Held<'e>, Stop>
    requires { (h : Held) → key ≡ Ok h → HasKeys (held map) (held h) }
    ensures { (outcome : Outcome Value) (turns : ℕ) → AnswersHeld outcome key.entry turns
        → AnswersHeld (followed outcome (λ v left. settled (level_at_key (out-Value (held map.entry)) v) left)) result turns }
{
    match key {
        Ok(key) => at_key(map, key.value()),
        Err(stop) => owned(stopped(map, stop)),
    }
}

/// The value of a map at a key.
fn at_key<'e>(map: Held<'e>, key: &Value) -> Result<Held<'e>, Stop>
    requires { HasKeys (held map) key.now }
    ensures { SettlesHeld (level_at_key (out-Value (held map.entry)) key.now) result }
{
    match map {
        Held::Own(value) => {
            let Some(mut pairs) = value.into_map() else {
                unreachable!()
            };
            match pairs.remove_key(key) {
                Some(value) => Ok(Held::Own(value)),
                None => Err(Stop::Fault(FaultKind::NoKey)),
            }
        }
        Held::Lent(value) => {
            let Value::Map(pairs) = value else {
                unreachable!()
            };
            match pairs.find(key) {
                Some(value) => Ok(Held::Lent(value)),
                None => Err(Stop::Fault(FaultKind::NoKey)),
            }
        }
    }
}

/// What a step gives of a value.
fn step_of<'e>(value: Held<'e>, step: &Selector<Value>) -> Result<Held<'e>, Stop>
    requires { StepFits step.now (held value) }
    ensures { SettlesHeld (step_of step.now (held value.entry)) result }
{
    match step {
        Selector::Member(place) => Ok(member(value, *place)),
        Selector::Element(index) => element(value, index),
        Selector::AtKey(key) => at_key(value, key),
    }
}

/// Takes a step of a value, and adds it after those that were taken.
pub fn take_step<'e>(
    value: Held<'e>,
    step: Selector<Value>,
    steps: &mut Items<Selector<Value>>,
) -> Result<Held<'e>, Stop>
    requires { StepFits step (held value) }
    ensures { MatchResult result
        (λ h. (step_of step (held value.entry) ≡ Gives (held h)) × (steps.new ≡ steps.old ++ step ∷ []))
        (λ stop. SettlesHeld (step_of step (held value.entry)) (Err stop)) }
{
    match step_of(value, &step) {
        Ok(next) => {
            steps.push(step)?;
            Ok(next)
        }
        Err(stop) => Err(stop),
    }
}
