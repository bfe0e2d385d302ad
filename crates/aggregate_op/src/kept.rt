//! What an Aggregate keeps of its window.
ghost use Rattle.std.specs.Prelude.{◌≡◌, [], IfOk};
ghost use Rattle.aggregate_op.specs.Kept.{KeptStands, WindowFits, are_summed as are_summed_by, folds_of as folds_by};

use crate::clauses::Clauses;
use language_model::{CollectedAttribute, WindowRule};
use spl_value::{Items, NoMemory};
use std::alloc::Global;
use window_policy::{Folds, Running, Window};

/// What an Aggregate keeps of its window: the tuples, with the values of their arguments after their own, or what the
/// folds of its assignments make of these values.
#[derive(Drop)]
pub(crate) enum Kept {
    Whole(Window),
    Sums(Running),
}

/// Whether folds are kept. The tuples of a content are several groups where there is a key of groups, and a window that
/// slides by `delta` lets tuples go that stand between others.
fn are_summed(clauses: &Clauses<'_>) -> bool
    ensures { result ≡ are_summed_by clauses.now.window.now.rule clauses.now.group.now }
{
    match clauses.window.rule {
        WindowRule::SlidingDelta { .. } => false,
        _ => clauses.group.is_empty(),
    }
}

/// The fold of each assignment.
fn folds_of(alloc: Global, output: &[CollectedAttribute]) -> Result<Folds, NoMemory>
    ensures { IfOk result (λ folds. folds ≡ folds_by output.now) }
{
    let mut folds = Items::with_capacity(alloc, output.len())?;
    for assignment in output {
        folds.push(assignment.collector)?;
    }
    Ok(folds)
}

/// What is kept before anything came.
pub(crate) fn kept_of(alloc: Global, clauses: &Clauses<'_>) -> Result<Kept, NoMemory>
    requires { WindowFits clauses.now }
    ensures { IfOk result (λ kept. KeptStands clauses.now clauses.now.window.now.rule kept []) }
{
    if are_summed(clauses) {
        let folds = folds_of(alloc, clauses.output.as_slice())?;
        let running = Running::new(alloc, clauses.window, &folds)?;
        Ok(Kept::Sums(running))
    } else {
        let window = Window::new(alloc, clauses.window)?;
        Ok(Kept::Whole(window))
    }
}
