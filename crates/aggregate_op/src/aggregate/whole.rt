//! What comes into a window of which the tuples are kept.
ghost use Rattle.std.specs.Prelude.{◌≡◌, ◌∷◌, [], IfOk, List, Some};
ghost use Rattle.spl_value.specs.declared.value.Value.{Value as V};
ghost use Rattle.language_model.specs.declared.checked.WindowRule.{WindowRule as Rule};
ghost use Rattle.language_model.specs.declared.outs.Output.{Output as O};
ghost use Rattle.stream_model.specs.Windows.{Insert, Mark, WindowEvent, content, contents_of, fired_contents};
ghost use Rattle.window_policy.specs.Answers.{firing_of};
ghost use Rattle.window_policy.specs.Standing.{Stands};
ghost use Rattle.aggregate_op.specs.steps.Firing.{Gives};
ghost use Rattle.aggregate_op.specs.steps.Giving.{contents_given};

use crate::clauses::Clauses;
use crate::contents::{give_flushed, give_held, give_tuples};
use language_model::{Outs, Tuples};
use spl_value::{NoMemory, Values};
use std::alloc::Global;
use window_policy::{Content, Fired, Window};

/// What a content gives that has left its window.
fn given_whole(alloc: Global, clauses: &Clauses<'_>, tuples: Tuples) -> Result<Outs, NoMemory>
    requires { (given : List O) × (contents_given clauses.now (tuples ∷ []) ≡ Some given) }
    ensures { IfOk result (λ outs. contents_given clauses.now (tuples ∷ []) ≡ Some outs) }
{
    let mut outs = Outs::new(alloc);
    give_tuples(alloc, clauses, tuples.as_slice(), &mut outs)?;
    Ok(outs)
}

/// What a content gives that stays in its window.
fn given_content(
    alloc: Global,
    clauses: &Clauses<'_>,
    content: &Content<'_>,
) -> Result<Outs, NoMemory>
    requires { (given : List O) × (contents_given clauses.now (content.now ∷ []) ≡ Some given) }
    ensures { IfOk result (λ outs. contents_given clauses.now (content.now ∷ []) ≡ Some outs) }
{
    let mut outs = Outs::new(alloc);
    give_held(alloc, clauses, content, &mut outs)?;
    Ok(outs)
}

/// What the content of the newest tuple's key gives, which stays in its window.
fn given_newest(alloc: Global, clauses: &Clauses<'_>, window: &Window) -> Result<Outs, NoMemory>
    requires { (rule : Rule) × (key tuple : List V) × (h : List WindowEvent) × (given : List O) × Stands rule window.now (Insert key tuple ∷ h)
        × (contents_given clauses.now (content rule key (Insert key tuple ∷ h) ∷ []) ≡ Some given) }
    ensures { IfOk result (λ outs. (rule : Rule) (key tuple : List V) (h : List WindowEvent) → Stands rule window.now (Insert key tuple ∷ h)
        → contents_given clauses.now (content rule key (Insert key tuple ∷ h) ∷ []) ≡ Some outs) }
{
    let content = window.newest_content();
    given_content(alloc, clauses, &content)
}

/// What the insertion of the newest tuple gives, which fires so.
fn given_fired(
    alloc: Global,
    clauses: &Clauses<'_>,
    window: &Window,
    fired: Fired,
) -> Result<Outs, NoMemory>
    requires { (rule : Rule) × (key tuple : List V) × (h : List WindowEvent) × (given : List O) × Stands rule window.now (Insert key tuple ∷ h)
        × (contents_given clauses.now (contents_of (firing_of fired (content rule key (Insert key tuple ∷ h)))) ≡ Some given) }
    ensures { IfOk result (λ outs. (rule : Rule) (key tuple : List V) (h : List WindowEvent) → Stands rule window.now (Insert key tuple ∷ h)
        → contents_given clauses.now (contents_of (firing_of fired (content rule key (Insert key tuple ∷ h)))) ≡ Some outs) }
{
    match fired {
        Fired::No => Ok(Outs::new(alloc)),
        Fired::Whole(tuples) => given_whole(alloc, clauses, tuples),
        Fired::Stays => given_newest(alloc, clauses, window),
    }
}

/// Inserts a tuple that has the values of its arguments after it, and answers what it fires with gives.
pub(crate) fn fire_whole(
    alloc: Global,
    clauses: &Clauses<'_>,
    window: &mut Window,
    key: &Values,
    tuple: Values,
) -> Result<Outs, NoMemory>
    requires { Gives clauses.now (λ rule h. Stands rule window.old h) (Insert key.now tuple) }
    ensures outs { IfOk result (λ outs. (rule : Rule) (h : List WindowEvent) → Stands rule window.old h
        → contents_given clauses.now (fired_contents rule (Insert key.now tuple) h) ≡ Some outs) }
    ensures stands { IfOk result (λ _. (rule : Rule) (h : List WindowEvent) → Stands rule window.old h → Stands rule window.new (Insert key.now tuple ∷ h)) }
{
    let fired = window.insert(key, tuple)?;
    let outs = given_fired(alloc, clauses, window, fired)?;
    Ok(outs)
}

/// Takes a window marker, and answers what the contents give that it flushes.
pub(crate) fn flush_whole(
    alloc: Global,
    clauses: &Clauses<'_>,
    window: &mut Window,
) -> Result<Outs, NoMemory>
    requires { Gives clauses.now (λ rule h. Stands rule window.old h) Mark }
    ensures outs { IfOk result (λ outs. (rule : Rule) (h : List WindowEvent) → Stands rule window.old h
        → contents_given clauses.now (fired_contents rule Mark h) ≡ Some outs) }
    ensures stands { IfOk result (λ _. (rule : Rule) (h : List WindowEvent) → Stands rule window.old h → Stands rule window.new (Mark ∷ h)) }
{
    let mut outs = Outs::new(alloc);
    let flushed = window.mark()?;
    give_flushed(alloc, clauses, flushed.as_slice(), &mut outs)?;
    Ok(outs)
}
