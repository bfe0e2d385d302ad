//! A tuple with those of the other side's window.
ghost use Rattle.std.specs.Prelude.{◌≡◌, ◌<◌, ◌++◌, IfOk, ℕ, List, Some, [], length, map, slice_get};
ghost use Rattle.spl_value.specs.declared.value.Value.{Value as V};
ghost use Rattle.language_model.specs.declared.checked.WindowRule.{WindowRule};
ghost use Rattle.stream_model.specs.Windows.{WindowEvent, content};
ghost use Rattle.window_policy.specs.Standing.{Stands};
ghost use Rattle.join_op.specs.Pairs.{other_place, with_other};
ghost use Rattle.join_op.specs.steps.Giving.{GivesAs, given};
ghost use Rattle.join_op.specs.steps.Matching.{matched, ClausesFit};

use crate::clauses::Clauses;
use crate::evaluation::made_where;
use crate::pair::set_other;
use crate::side::Side;
use language_model::{Env, Outs};
use port_reacts::{MOST_TURNS, give_first};
use spl_value::{Item, Items, NoMemory, Values};
use std::alloc::Global;
use value_operations::Stop;
use window_policy::{Content, Window};

/// Gives a tuple on the first output port, where there is one.
fn give(outs: &mut Outs, tuple: Option<Values>) -> Result<(), NoMemory>
    ensures { IfOk result (λ _. outs.new ≡ outs.old ++ given tuple) }
{
    match tuple {
        Some(values) => give_first(outs, Item::Tuple(values)),
        None => Ok(()),
    }
}

/// What the pairs of a tuple with the others give, from the first on, under the turns of one event. The
/// tuple has its place in the environment, and each of the others comes beside it.
fn match_all(
    alloc: Global,
    clauses: &Clauses<'_>,
    env: &mut Env,
    side: Side,
    others: &Content<'_>,
) -> Result<Outs, Stop>
    requires place { other_place side < length env.old.inputs }
    requires fit { ClausesFit clauses.now (with_other side env.old) others.now }
    ensures gives { GivesAs (matched clauses.now (map (with_other side env.old) others.now)) result }
    ensures env { IfOk result (λ _. (u : List V) → with_other side env.new u ≡ with_other side env.old u) }
{
    let functions = clauses.at.functions();
    let mut turns = MOST_TURNS;
    let mut outs = Outs::new(alloc);
    for i in 0..others.len() {
        set_other(alloc, env, side, others.at(i))?;
        let made = made_where(
            alloc,
            functions,
            clauses.condition,
            clauses.output,
            env,
            &mut turns,
        )?;
        give(&mut outs, made)?;
    }
    Ok(outs)
}

/// What the tuple in the environment gives with what the other side's window holds.
pub(crate) fn match_window(
    alloc: Global,
    clauses: &Clauses<'_>,
    env: &mut Env,
    side: Side,
    other: &Window,
) -> Result<Outs, Stop>
    requires place { other_place side < length env.old.inputs }
    requires fit { (rule : WindowRule) × (h : List WindowEvent) × Stands rule other.now h × ClausesFit clauses.now (with_other side env.old) (content rule [] h) }
    ensures gives { (rule : WindowRule) (h : List WindowEvent) → Stands rule other.now h
        → GivesAs (matched clauses.now (map (with_other side env.old) (content rule [] h))) result }
    ensures env { IfOk result (λ _. (u : List V) → with_other side env.new u ≡ with_other side env.old u) }
{
    let key = Items::new(alloc);
    match other.content(&key) {
        Some(others) => match_all(alloc, clauses, env, side, &others),
        None => Ok(Outs::new(alloc)),
    }
}
