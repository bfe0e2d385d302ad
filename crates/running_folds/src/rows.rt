//! What is kept for folds of rows of arguments that leave one by one.
ghost use Rattle.std.specs.Prelude.{◌≡◌, ◌∷◌, ◌++◌, [], List, IfOk, length, map, slice_get};
ghost use Rattle.std.specs.Option.{option_and_then, option_copied};
ghost use Rattle.circular_buffer.specs.Buffer.{last_item};
ghost use Rattle.spl_value.specs.declared.value.Value.{Value as V};
ghost use Rattle.running_folds.specs.Folds.{answers};
ghost use Rattle.running_folds.specs.Moving.{AreMoving, fold_of};
ghost use Rattle.running_folds.specs.steps.Moving.{LeavesTo, PassesTo};

use crate::moving::Moving;
use crate::tallies::push_some;
use language_model::Collector;
use spl_value::{Items, NoMemory, Value, Values};
use std::alloc::Global;

/// What is kept for folds before a row came.
pub fn moving_of(alloc: Global, folds: &[Collector]) -> Result<Vec<Moving>, NoMemory>
    ensures folds { IfOk result (λ moving. map fold_of moving.items ≡ folds.now) }
    ensures moving { IfOk result (λ moving. AreMoving moving.items []) }
{
    let mut moving = Vec::with_capacity(alloc, folds.len())?;
    for fold in folds {
        moving.push(Moving::new(alloc, *fold))?;
    }
    Ok(moving)
}

/// The value of a row at a place.
fn value_at(row: Option<&Values>, place: usize) -> Option<&Value>
    ensures { option_copied result ≡ option_and_then (λ values. slice_get values place) (option_copied row.entry) }
{
    match row {
        Some(row) => row.get(place),
        None => None,
    }
}

/// Takes the value of a row at a place, where it is there.
fn pass_at(alloc: Global, one: &mut Moving, row: &Values, place: usize) -> Result<(), NoMemory>
    ensures { IfOk result (λ _. PassesTo (slice_get row.now place) one.old one.new) }
{
    match row.get(place) {
        Some(value) => one.pass(alloc, value),
        None => Ok(()),
    }
}

/// Takes one more row, which has a value for each fold.
pub fn pass_all(alloc: Global, moving: &mut [Moving], row: &Values) -> Result<(), NoMemory>
    ensures folds { IfOk result (λ _. length row.now ≡ length moving.old → map fold_of moving.new ≡ map fold_of moving.old) }
    ensures moving { IfOk result (λ _. length row.now ≡ length moving.old → (rows : List (List V)) → AreMoving moving.old rows → AreMoving moving.new (rows ++ row.now ∷ [])) }
{
    let mut place = 0usize;
    for one in moving.iter_mut() {
        pass_at(alloc, one, row, place)?;
        place += 1;
    }
    Ok(())
}

/// Lets the value of a row at a place go, where it is there.
fn leave_at(one: &mut Moving, row: &Values, place: usize)
    ensures { LeavesTo (slice_get row.now place) one.old one.new }
{
    if let Some(value) = row.get(place) {
        one.leave(value);
    }
}

/// Lets the first row go.
pub fn leave_all(moving: &mut [Moving], row: &Values)
    ensures folds { map fold_of moving.new ≡ map fold_of moving.old }
    ensures moving { (rows : List (List V)) → AreMoving moving.old (row.now ∷ rows) → AreMoving moving.new rows }
{
    let mut place = 0usize;
    for one in moving.iter_mut() {
        leave_at(one, row, place);
        place += 1;
    }
}

/// What each fold makes of the rows: the first and the last of them, and their number, are given.
pub fn made_all(
    alloc: Global,
    moving: &[Moving],
    first: Option<&Values>,
    last: Option<&Values>,
    count: usize,
) -> Result<Values, NoMemory>
    ensures { IfOk result (λ made. (rows : List (List V)) → AreMoving moving.now rows → option_copied first.entry ≡ slice_get rows 0
        → option_copied last.entry ≡ last_item rows → count ≡ length rows → made ≡ answers (map fold_of moving.now) rows) }
{
    let mut made = Items::with_capacity(alloc, moving.len())?;
    for (place, one) in moving.iter().enumerate() {
        let value = one.made(alloc, value_at(first, place), value_at(last, place), count)?;
        push_some(&mut made, value)?;
    }
    Ok(made)
}
