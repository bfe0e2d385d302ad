//! What an Aggregate gives for contents.
ghost use Rattle.std.specs.Prelude.{◌≡◌, ◌++◌, [], IfOk, List, Some, map};
ghost use Rattle.spl_value.specs.declared.item.Item.TheVariants as I;
ghost use Rattle.spl_value.specs.declared.value.Value.{Value as V};
ghost use Rattle.language_model.specs.declared.outs.Output.{Output as O};
ghost use Rattle.stream_model.specs.parts.Aggregates.{marker_after};
ghost use Rattle.stream_model.specs.Bodies.{on_first};
ghost use Rattle.stream_model.specs.Groups.{groups as groups_of};
ghost use Rattle.tuple_groups.specs.Seen.{entry_of, seen};
ghost use Rattle.aggregate_op.specs.steps.Giving.{AreGiven, content_given, contents_given, groups_given, tuple_given};

use crate::clauses::Clauses;
use language_model::{Outs, WindowRule};
use port_reacts::give_first;
use spl_value::{Item, NoMemory, Values};
use std::alloc::Global;
use tuple_groups::{group_tuple, groups};
use window_policy::{Content, FlushedContent};

/// Tuples, to be looked at where they stand.
fn references<'a>(alloc: Global, tuples: &'a [Values]) -> Result<Vec<&'a Values>, NoMemory>
    ensures { IfOk result (λ refs. seen refs.items ≡ tuples.now) }
{
    let mut references = Vec::with_capacity(alloc, tuples.len())?;
    for tuple in tuples {
        references.push(tuple)?;
    }
    Ok(references)
}

/// The tuples of a content, to be looked at where they stand.
fn held<'a>(alloc: Global, content: &'a Content<'_>) -> Result<Vec<&'a Values>, NoMemory>
    ensures { IfOk result (λ refs. seen refs.items ≡ content.now) }
{
    let mut references = Vec::with_capacity(alloc, content.len() as usize)?;
    for i in 0..content.len() {
        references.push(content.at(i))?;
    }
    Ok(references)
}

/// Gives the tuple of a group.
fn give_group(
    alloc: Global,
    clauses: &Clauses<'_>,
    members: &[&Values],
    outs: &mut Outs,
) -> Result<(), NoMemory>
    requires { (vs : List V) × (tuple_given clauses.now (seen members.now) ≡ Some vs) }
    ensures { IfOk result (λ _. (vs : List V) → tuple_given clauses.now (seen members.now) ≡ Some vs → outs.new ≡ outs.old ++ on_first (I.Tuple vs)) }
{
    let values = group_tuple(alloc, clauses.output, clauses.width, members)?;
    give_first(outs, Item::Tuple(values))
}

/// Gives the tuple of each group.
fn give_groups(
    alloc: Global,
    clauses: &Clauses<'_>,
    groups: &[(Values, Vec<&Values>)],
    outs: &mut Outs,
) -> Result<(), NoMemory>
    requires { (given : List O) × (groups_given clauses.now (map entry_of groups.now) ≡ Some given) }
    ensures { IfOk result (λ _. AreGiven (groups_given clauses.now (map entry_of groups.now)) outs.old outs.new) }
{
    for group in groups {
        give_group(alloc, clauses, group.1.as_slice(), outs)?;
    }
    Ok(())
}

/// Gives the tuple of all tuples as one group, where there are some.
fn give_together(
    alloc: Global,
    clauses: &Clauses<'_>,
    tuples: &[&Values],
    outs: &mut Outs,
) -> Result<(), NoMemory>
    requires { (given : List O) × (groups_given clauses.now (groups_of [] (seen tuples.now)) ≡ Some given) }
    ensures { IfOk result (λ _. AreGiven (groups_given clauses.now (groups_of [] (seen tuples.now))) outs.old outs.new) }
{
    if tuples.is_empty() {
        return Ok(());
    }
    give_group(alloc, clauses, tuples, outs)
}

/// Gives the tuples of the groups by the places of the clauses.
fn give_by_places(
    alloc: Global,
    clauses: &Clauses<'_>,
    tuples: &[&Values],
    outs: &mut Outs,
) -> Result<(), NoMemory>
    requires { (given : List O) × (groups_given clauses.now (groups_of clauses.now.group.now (seen tuples.now)) ≡ Some given) }
    ensures { IfOk result (λ _. AreGiven (groups_given clauses.now (groups_of clauses.now.group.now (seen tuples.now))) outs.old outs.new) }
{
    let groups = groups(alloc, clauses.group, tuples)?;
    give_groups(alloc, clauses, groups.as_slice(), outs)?;
    Ok(())
}

/// Gives the tuples of the groups of a content.
fn give_grouped(
    alloc: Global,
    clauses: &Clauses<'_>,
    tuples: &[&Values],
    outs: &mut Outs,
) -> Result<(), NoMemory>
    requires { (given : List O) × (groups_given clauses.now (groups_of clauses.now.group.now (seen tuples.now)) ≡ Some given) }
    ensures { IfOk result (λ _. AreGiven (groups_given clauses.now (groups_of clauses.now.group.now (seen tuples.now))) outs.old outs.new) }
{
    if clauses.group.is_empty() {
        give_together(alloc, clauses, tuples, outs)
    } else {
        give_by_places(alloc, clauses, tuples, outs)
    }
}

/// Gives a window marker after a content, where the window tumbles.
pub(crate) fn give_marker(rule: WindowRule, outs: &mut Outs) -> Result<(), NoMemory>
    ensures { IfOk result (λ _. outs.new ≡ outs.old ++ marker_after rule) }
{
    match rule {
        WindowRule::SlidingCount { .. } | WindowRule::SlidingDelta { .. } => Ok(()),
        _ => give_first(outs, Item::Window),
    }
}

/// Gives what a content gives.
fn give_content(
    alloc: Global,
    clauses: &Clauses<'_>,
    tuples: &[&Values],
    outs: &mut Outs,
) -> Result<(), NoMemory>
    requires { (given : List O) × (content_given clauses.now (seen tuples.now) ≡ Some given) }
    ensures { IfOk result (λ _. AreGiven (content_given clauses.now (seen tuples.now)) outs.old outs.new) }
{
    give_grouped(alloc, clauses, tuples, outs)?;
    give_marker(clauses.window.rule, outs)?;
    Ok(())
}

/// Gives what a content gives that has left its window.
pub(crate) fn give_tuples(
    alloc: Global,
    clauses: &Clauses<'_>,
    tuples: &[Values],
    outs: &mut Outs,
) -> Result<(), NoMemory>
    requires { (given : List O) × (content_given clauses.now tuples.now ≡ Some given) }
    ensures { IfOk result (λ _. AreGiven (content_given clauses.now tuples.now) outs.old outs.new) }
{
    let references = references(alloc, tuples)?;
    give_content(alloc, clauses, references.as_slice(), outs)?;
    Ok(())
}

/// Gives what a content gives that stays in its window.
pub(crate) fn give_held(
    alloc: Global,
    clauses: &Clauses<'_>,
    content: &Content<'_>,
    outs: &mut Outs,
) -> Result<(), NoMemory>
    requires { (given : List O) × (content_given clauses.now content.now ≡ Some given) }
    ensures { IfOk result (λ _. AreGiven (content_given clauses.now content.now) outs.old outs.new) }
{
    let references = held(alloc, content)?;
    give_content(alloc, clauses, references.as_slice(), outs)?;
    Ok(())
}

/// Gives what each of the contents gives that a window marker flushes.
pub(crate) fn give_flushed(
    alloc: Global,
    clauses: &Clauses<'_>,
    flushed: &[FlushedContent],
    outs: &mut Outs,
) -> Result<(), NoMemory>
    requires { (given : List O) × (contents_given clauses.now (map (λ e. e.tuples) flushed.now) ≡ Some given) }
    ensures { IfOk result (λ _. AreGiven (contents_given clauses.now (map (λ e. e.tuples) flushed.now)) outs.old outs.new) }
{
    for content in flushed {
        give_tuples(alloc, clauses, content.tuples.as_slice(), outs)?;
    }
    Ok(())
}
