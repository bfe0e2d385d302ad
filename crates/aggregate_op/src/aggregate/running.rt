//! What comes into a window of which folds are kept.
ghost use Rattle.std.specs.Prelude.{◌≡◌, ◌∷◌, ◌++◌, IfOk, List, Some, length};
ghost use Rattle.language_model.specs.declared.checked.WindowRule.{WindowRule as Rule};
ghost use Rattle.stream_model.specs.Windows.{Insert, Mark, WindowEvent, fired_contents};
ghost use Rattle.aggregate_op.specs.Kept.{SumsStand};
ghost use Rattle.aggregate_op.specs.steps.Firing.{Gives};
ghost use Rattle.aggregate_op.specs.steps.Giving.{contents_given};

use crate::clauses::Clauses;
use crate::sums::{give_sums, given_summed};
use language_model::Outs;
use spl_value::{NoMemory, Values};
use std::alloc::Global;
use window_policy::Running;

/// Inserts a tuple with the values of its arguments, and answers what the content gives that it fires, where one does.
pub(crate) fn fire_sums(
    alloc: Global,
    clauses: &Clauses<'_>,
    running: &mut Running,
    key: &Values,
    tuple: Values,
    args: Values,
) -> Result<Outs, NoMemory>
    requires long { length tuple ≡ clauses.now.width }
    requires many { length args ≡ length clauses.now.output.now }
    requires gives { Gives clauses.now (λ rule h. SumsStand clauses.now rule running.old h) (Insert key.now (tuple ++ args)) }
    ensures outs { IfOk result (λ outs. (rule : Rule) (h : List WindowEvent) → SumsStand clauses.now rule running.old h
        → contents_given clauses.now (fired_contents rule (Insert key.now (tuple ++ args)) h) ≡ Some outs) }
    ensures stands { IfOk result (λ _. (rule : Rule) (h : List WindowEvent) → SumsStand clauses.now rule running.old h
        → SumsStand clauses.now rule running.new (Insert key.now (tuple ++ args) ∷ h)) }
{
    let summed = running.insert(key, tuple, args)?;
    let outs = given_summed(alloc, clauses, summed)?;
    Ok(outs)
}

/// Takes a window marker, and answers what the contents give that it flushes.
pub(crate) fn flush_sums(
    alloc: Global,
    clauses: &Clauses<'_>,
    running: &mut Running,
) -> Result<Outs, NoMemory>
    requires { Gives clauses.now (λ rule h. SumsStand clauses.now rule running.old h) Mark }
    ensures outs { IfOk result (λ outs. (rule : Rule) (h : List WindowEvent) → SumsStand clauses.now rule running.old h
        → contents_given clauses.now (fired_contents rule Mark h) ≡ Some outs) }
    ensures stands { IfOk result (λ _. (rule : Rule) (h : List WindowEvent) → SumsStand clauses.now rule running.old h
        → SumsStand clauses.now rule running.new (Mark ∷ h)) }
{
    let mut outs = Outs::new(alloc);
    let list = running.mark()?;
    give_sums(alloc, clauses, list.as_slice(), &mut outs)?;
    Ok(outs)
}
