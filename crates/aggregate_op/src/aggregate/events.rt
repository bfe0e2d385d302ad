//! What the events of an Aggregate cause.
ghost use Rattle.std.specs.Prelude.{◌≡◌, ◌∷◌, ◌++◌, IfOk, List, Some, length};
ghost use Rattle.language_model.specs.declared.checked.WindowRule.{WindowRule as Rule};
ghost use Rattle.language_model.specs.declared.outs.Output.{Output as O};
ghost use Rattle.stream_model.specs.parts.Aggregates.{marker_passed};
ghost use Rattle.stream_model.specs.Bodies.{at_tuple};
ghost use Rattle.stream_model.specs.React.{answer};
ghost use Rattle.stream_model.specs.Windows.{Insert, Mark, WindowEvent, fired_contents};
ghost use Rattle.port_reacts.specs.Bodies.{RepliesTo, RepliesToItem};
ghost use Rattle.port_reacts.specs.Evaluation.{idle};
ghost use Rattle.port_reacts.specs.PortReplies.{WhereOut};
ghost use Rattle.aggregate_op.specs.Arguments.{extended as extended_by};
ghost use Rattle.aggregate_op.specs.Kept.{KeptStands};
ghost use Rattle.aggregate_op.specs.Standing.{key_of_tuple};
ghost use Rattle.aggregate_op.specs.steps.Arguments.{ArgumentsFit};
ghost use Rattle.aggregate_op.specs.steps.Firing.{EventGives, MayCome, TupleGives, events_after, event_makes, item_makes, tuple_makes};
ghost use Rattle.aggregate_op.specs.steps.Giving.{contents_given};

use crate::aggregate::running::{fire_sums, flush_sums};
use crate::aggregate::whole::{fire_whole, flush_whole};
use crate::arguments::with_arguments;
use crate::clauses::Clauses;
use crate::kept::Kept;
use language_model::{Env, Outs, WindowRule};
use port_reacts::{give_first, given_none};
use spl_value::{Item, Items, NoMemory, Values};
use std::alloc::Global;
use stream_model::Reply;
use tuple_groups::key_of;

/// The key of a tuple in the window, which is empty where it isn't partitioned.
fn window_key(alloc: Global, clauses: &Clauses<'_>, tuple: &Values) -> Result<Values, NoMemory>
    ensures { IfOk result (λ key. key ≡ key_of_tuple clauses.now tuple.now) }
{
    if clauses.window.partitioned {
        key_of(alloc, tuple, clauses.partition)
    } else {
        Ok(Items::new(alloc))
    }
}

/// Inserts a tuple with the values of its arguments, and answers what it fires with gives.
fn fire(
    alloc: Global,
    clauses: &Clauses<'_>,
    kept: &mut Kept,
    key: &Values,
    tuple: Values,
    args: Values,
) -> Result<Outs, NoMemory>
    requires long { length tuple ≡ clauses.now.width }
    requires many { length args ≡ length clauses.now.output.now }
    requires gives { EventGives clauses.now kept.old (Insert key.now (tuple ++ args)) }
    ensures outs { IfOk result (λ outs. (rule : Rule) (h : List WindowEvent) → KeptStands clauses.now rule kept.old h
        → contents_given clauses.now (fired_contents rule (Insert key.now (tuple ++ args)) h) ≡ Some outs) }
    ensures stands { IfOk result (λ _. (rule : Rule) (h : List WindowEvent) → KeptStands clauses.now rule kept.old h
        → KeptStands clauses.now rule kept.new (Insert key.now (tuple ++ args) ∷ h)) }
{
    match kept {
        Kept::Whole(window) => {
            let mut tuple = tuple;
            tuple.append(args)?;
            fire_whole(alloc, clauses, window, key, tuple)
        }
        Kept::Sums(running) => fire_sums(alloc, clauses, running, key, tuple, args),
    }
}

/// Takes a window marker, and answers what the contents give that it flushes.
fn flush(alloc: Global, clauses: &Clauses<'_>, kept: &mut Kept) -> Result<Outs, NoMemory>
    requires { EventGives clauses.now kept.old Mark }
    ensures outs { IfOk result (λ outs. (rule : Rule) (h : List WindowEvent) → KeptStands clauses.now rule kept.old h
        → contents_given clauses.now (fired_contents rule Mark h) ≡ Some outs) }
    ensures stands { IfOk result (λ _. (rule : Rule) (h : List WindowEvent) → KeptStands clauses.now rule kept.old h
        → KeptStands clauses.now rule kept.new (Mark ∷ h)) }
{
    match kept {
        Kept::Whole(window) => flush_whole(alloc, clauses, window),
        Kept::Sums(running) => flush_sums(alloc, clauses, running),
    }
}

/// Gives a window marker, where the window slides.
fn pass_marker(rule: WindowRule, outs: &mut Outs) -> Result<(), NoMemory>
    ensures { IfOk result (λ _. outs.new ≡ outs.old ++ marker_passed rule) }
{
    match rule {
        WindowRule::SlidingCount { .. } | WindowRule::SlidingDelta { .. } => {
            give_first(outs, Item::Window)
        }
        _ => Ok(()),
    }
}

/// Takes a window marker, and gives what it flushes, and itself where the window slides.
fn mark(alloc: Global, clauses: &Clauses<'_>, kept: &mut Kept) -> Result<Outs, NoMemory>
    requires { EventGives clauses.now kept.old Mark }
    ensures outs { IfOk result (λ outs. (rule : Rule) (h : List WindowEvent) → KeptStands clauses.now rule kept.old h
        → (given : List O) × (contents_given clauses.now (fired_contents rule Mark h) ≡ Some given) × (outs ≡ given ++ marker_passed clauses.now.window.now.rule)) }
    ensures stands { IfOk result (λ _. (rule : Rule) (h : List WindowEvent) → KeptStands clauses.now rule kept.old h → KeptStands clauses.now rule kept.new (Mark ∷ h)) }
{
    let mut outs = flush(alloc, clauses, kept)?;
    pass_marker(clauses.window.rule, &mut outs)?;
    Ok(outs)
}

/// A tuple goes into its window with the values of its arguments, and gives what it fires with.
fn on_tuple(
    alloc: Global,
    clauses: &Clauses<'_>,
    env: &mut Env,
    kept: &mut Kept,
    tuple: Values,
) -> Reply
    requires idle { env.old ≡ idle }
    requires fit { ArgumentsFit clauses.now.at.checked.now.functions clauses.now.output.now (at_tuple tuple) }
    requires long { length tuple ≡ clauses.now.width }
    requires there { TupleGives clauses.now kept.old tuple }
    ensures replies { (rule : Rule) (h : List WindowEvent) → KeptStands clauses.now rule kept.old h
        → RepliesTo clauses.now.at.number (length clauses.now.at.op.now.outs) (answer (tuple_makes clauses.now rule h tuple)) result }
    ensures stands { WhereOut result ((rule : Rule) (h : List WindowEvent) → KeptStands clauses.now rule kept.old h
        → KeptStands clauses.now rule kept.new (Insert (key_of_tuple clauses.now tuple) (extended_by clauses.now.at.checked.now.functions clauses.now.output.now tuple) ∷ h)) }
    ensures idle { WhereOut result (env.new ≡ idle) }
{
    let Ok(key) = window_key(alloc, clauses, &tuple) else {
        return Reply::Memory;
    };
    match with_arguments(alloc, clauses.at.functions(), clauses.output, env, tuple) {
        Ok((tuple, args)) => match fire(alloc, clauses, kept, &key, tuple, args) {
            Ok(outs) => Reply::Out(outs),
            Err(_) => Reply::Memory,
        },
        Err(stop) => clauses.at.stopped(alloc, stop),
    }
}

/// A window marker gives what it flushes, and itself where the window slides.
fn on_window(alloc: Global, clauses: &Clauses<'_>, kept: &mut Kept) -> Reply
    requires { EventGives clauses.now kept.old Mark }
    ensures replies { (rule : Rule) (h : List WindowEvent) → KeptStands clauses.now rule kept.old h
        → RepliesTo clauses.now.at.number (length clauses.now.at.op.now.outs) (answer (event_makes clauses.now rule h)) result }
    ensures stands { WhereOut result ((rule : Rule) (h : List WindowEvent) → KeptStands clauses.now rule kept.old h → KeptStands clauses.now rule kept.new (Mark ∷ h)) }
{
    match mark(alloc, clauses, kept) {
        Ok(outs) => Reply::Out(outs),
        Err(_) => Reply::Memory,
    }
}

/// What an item causes.
pub(crate) fn on_item(
    alloc: Global,
    clauses: &Clauses<'_>,
    env: &mut Env,
    kept: &mut Kept,
    item: Item,
) -> Reply
    requires idle { env.old ≡ idle }
    requires may { MayCome clauses.now kept.old item }
    ensures replies { (rule : Rule) (h : List WindowEvent) → KeptStands clauses.now rule kept.old h
        → RepliesToItem clauses.now.at.number (length clauses.now.at.op.now.outs) (answer (item_makes clauses.now rule h item)) item result }
    ensures stands { WhereOut result ((rule : Rule) (h : List WindowEvent) → KeptStands clauses.now rule kept.old h → KeptStands clauses.now rule kept.new (events_after clauses.now item h)) }
    ensures idle { WhereOut result (env.new ≡ idle) }
{
    match item {
        Item::Tuple(values) => on_tuple(alloc, clauses, env, kept, values),
        Item::Window => on_window(alloc, clauses, kept),
        Item::Final => given_none(alloc),
        Item::Bad(fault) => clauses.at.ended_by(alloc, fault),
    }
}
