//! What an Aggregate gives for the folds of contents.
ghost use Rattle.std.specs.Prelude.{◌≡◌, ◌∷◌, [], IfOk, List, Some, map};
ghost use Rattle.std.specs.Option.{option_to_list};
ghost use Rattle.spl_value.specs.declared.value.Value.{Value as V};
ghost use Rattle.language_model.specs.declared.outs.Output.{Output as O};
ghost use Rattle.language_model.specs.Evaluation.{field_at};
ghost use Rattle.aggregate_op.specs.steps.Giving.{AreGiven};
ghost use Rattle.aggregate_op.specs.steps.Summing.{answers_given, answers_in, fields_of, made_by, sums_given, tuple_with};

use crate::clauses::Clauses;
use crate::contents::give_marker;
use language_model::{CollectedAttribute, Outs};
use port_reacts::give_first;
use spl_value::{Item, Items, NoMemory, Value, Values, copy_value};
use std::alloc::Global;
use window_policy::{Summed, SummedContent};

/// What the fold of the assignment of an attribute made.
fn attribute_of(
    alloc: Global,
    output: &[CollectedAttribute],
    answers: &Values,
    attribute: usize,
) -> Result<Value, NoMemory>
    requires { (v : V) × (field_at attribute (fields_of output.now answers.now) ≡ Some v) }
    ensures { IfOk result (λ v. field_at attribute (fields_of output.now answers.now) ≡ Some v) }
{
    for (k, assignment) in output.iter().enumerate() {
        if assignment.attribute as usize == attribute {
            let Some(value) = answers.get(k) else {
                unreachable!()
            };
            let copy = copy_value(alloc, value)?;
            return Ok(copy);
        }
    }
    unreachable!()
}

/// The tuple whose attributes are what the folds of their assignments made.
fn answers_tuple(
    alloc: Global,
    output: &Items<CollectedAttribute>,
    answers: &Values,
) -> Result<Values, NoMemory>
    requires { (vs : List V) × (tuple_with output.now answers.now ≡ Some vs) }
    ensures { IfOk result (λ vs. tuple_with output.now answers.now ≡ Some vs) }
{
    let mut values = Items::with_capacity(alloc, output.len())?;
    for attribute in 0..output.len() {
        let value = attribute_of(alloc, output.as_slice(), answers, attribute)?;
        values.push(value)?;
    }
    Ok(values)
}

/// Gives the tuple of a content, by what the folds made of it, and what follows the tuple.
fn give_answers(
    alloc: Global,
    clauses: &Clauses<'_>,
    answers: &Values,
    outs: &mut Outs,
) -> Result<(), NoMemory>
    requires { (given : List O) × (answers_given clauses.now answers.now ≡ Some given) }
    ensures { IfOk result (λ _. AreGiven (answers_given clauses.now answers.now) outs.old outs.new) }
{
    let values = answers_tuple(alloc, clauses.output, answers)?;
    give_first(outs, Item::Tuple(values))?;
    give_marker(clauses.window.rule, outs)?;
    Ok(())
}

/// What a content gives, by what the folds made of it.
fn given_answers(alloc: Global, clauses: &Clauses<'_>, answers: &Values) -> Result<Outs, NoMemory>
    requires { (given : List O) × (sums_given clauses.now (answers.now ∷ []) ≡ Some given) }
    ensures { IfOk result (λ outs. sums_given clauses.now (answers.now ∷ []) ≡ Some outs) }
{
    let mut outs = Outs::new(alloc);
    give_answers(alloc, clauses, answers, &mut outs)?;
    Ok(outs)
}

/// What a content gives, by what the folds made of it, where one fires.
pub(crate) fn given_summed(
    alloc: Global,
    clauses: &Clauses<'_>,
    summed: Option<Summed>,
) -> Result<Outs, NoMemory>
    requires { (given : List O) × (sums_given clauses.now (map answers_in (option_to_list summed)) ≡ Some given) }
    ensures { IfOk result (λ outs. sums_given clauses.now (map answers_in (option_to_list summed)) ≡ Some outs) }
{
    match summed {
        None => Ok(Outs::new(alloc)),
        Some(summed) => {
            let outs = given_answers(alloc, clauses, &summed.answers)?;
            Ok(outs)
        }
    }
}

/// Gives what each of the contents gives that a window marker flushes, by what the folds made of it.
pub(crate) fn give_sums(
    alloc: Global,
    clauses: &Clauses<'_>,
    list: &[SummedContent],
    outs: &mut Outs,
) -> Result<(), NoMemory>
    requires { (given : List O) × (sums_given clauses.now (map made_by list.now) ≡ Some given) }
    ensures { IfOk result (λ _. AreGiven (sums_given clauses.now (map made_by list.now)) outs.old outs.new) }
{
    for content in list {
        give_answers(alloc, clauses, &content.summed.answers, outs)?;
    }
    Ok(())
}
