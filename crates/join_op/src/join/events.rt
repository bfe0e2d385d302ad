//! What the events of a side cause.
ghost use Rattle.std.specs.Prelude.{◌≡◌, ◌∷◌, [], List, length, map};
ghost use Rattle.language_model.specs.declared.checked.WindowRule.{WindowRule};
ghost use Rattle.stream_model.specs.Bodies.{by_item};
ghost use Rattle.stream_model.specs.React.{answer};
ghost use Rattle.stream_model.specs.Windows.{WindowEvent, Insert, Mark, content};
ghost use Rattle.window_policy.specs.Standing.{Stands};
ghost use Rattle.port_reacts.specs.Bodies.{GoesOn, RepliesTo, RepliesToItem};
ghost use Rattle.join_op.specs.Pairs.{IsReady, pair_env};
ghost use Rattle.join_op.specs.steps.Matching.{ClausesFit, MayMatch, matched};
ghost use Rattle.port_reacts.specs.PortReplies.{WhereOut};
ghost use Rattle.join_op.specs.steps.Standing.{events_after};

use crate::clauses::Clauses;
use crate::matching::match_window;
use crate::pair::swap_own;
use crate::side::Side;
use language_model::Env;
use port_reacts::given_none;
use spl_value::{Item, Items, Values};
use std::alloc::Global;
use stream_model::Reply;
use window_policy::Window;

/// A tuple gives what it gives with the other side's window, and goes into its own.
fn on_tuple(
    alloc: Global,
    clauses: &Clauses<'_>,
    env: &mut Env,
    own: &mut Window,
    other: &Window,
    side: Side,
    tuple: Values,
) -> Reply
    requires ready { IsReady env.old }
    requires fit { (rule : WindowRule) × (h : List WindowEvent) × Stands rule other.now h × ClausesFit clauses.now (pair_env side tuple) (content rule [] h) }
    ensures replies { (rule : WindowRule) (h : List WindowEvent) → Stands rule other.now h
        → RepliesTo clauses.now.at.number (length clauses.now.at.op.now.outs) (answer (matched clauses.now (map (pair_env side tuple) (content rule [] h)))) result }
    ensures stands { WhereOut result ((rule : WindowRule) (h : List WindowEvent) → Stands rule own.old h → Stands rule own.new (Insert [] tuple ∷ h)) }
    ensures ready { WhereOut result (IsReady env.new) }
{
    let _ = swap_own(env, side, tuple);
    match match_window(alloc, clauses, env, side, other) {
        Ok(outs) => {
            let tuple = swap_own(env, side, Items::new(alloc));
            match own.insert(&Items::new(alloc), tuple) {
                Ok(_) => Reply::Out(outs),
                Err(_) => Reply::Memory,
            }
        }
        Err(stop) => clauses.at.stopped(alloc, stop),
    }
}

/// A window marker comes into the side's window, and gives nothing.
fn on_window(alloc: Global, own: &mut Window) -> Reply
    ensures gives { GoesOn [] result }
    ensures stands { WhereOut result ((rule : WindowRule) (h : List WindowEvent) → Stands rule own.old h → Stands rule own.new (Mark ∷ h)) }
{
    match own.mark() {
        Ok(_) => given_none(alloc),
        Err(_) => Reply::Memory,
    }
}

/// What an item of a side causes.
pub(crate) fn on_item(
    alloc: Global,
    clauses: &Clauses<'_>,
    env: &mut Env,
    own: &mut Window,
    other: &Window,
    side: Side,
    item: Item,
) -> Reply
    requires ready { IsReady env.old }
    requires fit { MayMatch clauses.now side other.now item }
    ensures replies { (rule : WindowRule) (h : List WindowEvent) → Stands rule other.now h
        → RepliesToItem clauses.now.at.number (length clauses.now.at.op.now.outs)
        (answer (by_item (λ t. matched clauses.now (map (pair_env side t) (content rule [] h))) [] item)) item result }
    ensures stands { WhereOut result ((rule : WindowRule) (h : List WindowEvent) → Stands rule own.old h → Stands rule own.new (events_after item h)) }
    ensures ready { WhereOut result (IsReady env.new) }
{
    match item {
        Item::Tuple(values) => on_tuple(alloc, clauses, env, own, other, side, values),
        Item::Window => on_window(alloc, own),
        Item::Final => given_none(alloc),
        Item::Bad(fault) => clauses.at.ended_by(alloc, fault),
    }
}
