//! What is kept for folds of rows of arguments that all leave at once.
ghost use Rattle.std.specs.Prelude.{◌≡◌, ◌∷◌, ◌++◌, [], List, IfOk, length, map};
ghost use Rattle.std.specs.Option.{option_to_list};
ghost use Rattle.std.specs.Vec.Iter.{into_iter_items};
ghost use Rattle.spl_value.specs.declared.value.Value.{Value as V};
ghost use Rattle.running_folds.specs.Tallies.{AreTallied, fold_of, made_from};
ghost use Rattle.running_folds.specs.steps.Tallies.{Adds};

use crate::tally::Tally;
use language_model::Collector;
use spl_value::{Items, NoMemory, Value, Values};
use std::alloc::Global;
use std::vec::IntoIter;

/// What is kept for folds before a row came.
pub fn tallies_of(alloc: Global, folds: &[Collector]) -> Result<Vec<Tally>, NoMemory>
    ensures folds { IfOk result (λ tallies. map fold_of tallies.items ≡ folds.now) }
    ensures tallied { IfOk result (λ tallies. AreTallied tallies.items []) }
{
    let mut tallies = Vec::with_capacity(alloc, folds.len())?;
    for fold in folds {
        tallies.push(Tally::new(*fold))?;
    }
    Ok(tallies)
}

/// Takes the next of some values, where there is one.
fn add_next(tally: &mut Tally, values: &mut IntoIter<Value>)
    ensures adds { (v : V) (rest : List V) → into_iter_items values.old ≡ v ∷ rest → Adds v tally.old tally.new }
    ensures rest { (v : V) (rest : List V) → into_iter_items values.old ≡ v ∷ rest → into_iter_items values.new ≡ rest }
{
    if let Some(value) = values.next() {
        tally.add(value);
    }
}

/// Takes one more row, which has a value for each fold.
pub fn add_all(tallies: &mut [Tally], row: Values)
    ensures folds { length row ≡ length tallies.old → map fold_of tallies.new ≡ map fold_of tallies.old }
    ensures tallied { length row ≡ length tallies.old → (rows : List (List V)) → AreTallied tallies.old rows → AreTallied tallies.new (rows ++ row ∷ []) }
{
    let mut values = row.into_vec().into_iter();
    for tally in tallies.iter_mut() {
        add_next(tally, &mut values);
    }
}

/// Adds a value after the others, where there is one.
pub(crate) fn push_some(values: &mut Values, value: Option<Value>) -> Result<(), NoMemory>
    ensures { IfOk result (λ _. values.new ≡ values.old ++ option_to_list value) }
{
    if let Some(value) = value {
        values.push(value)?;
    }
    Ok(())
}

/// What each fold makes of the rows. They leave.
pub fn take_all(alloc: Global, tallies: &mut [Tally]) -> Result<Values, NoMemory>
    ensures folds { IfOk result (λ _. map fold_of tallies.new ≡ map fold_of tallies.old) }
    ensures made { IfOk result (λ made. made ≡ made_from tallies.old) }
    ensures tallied { IfOk result (λ _. AreTallied tallies.new []) }
{
    let mut made = Items::with_capacity(alloc, tallies.len())?;
    for tally in tallies.iter_mut() {
        push_some(&mut made, tally.take())?;
    }
    Ok(made)
}
