//! The graph of a unit.
ghost use Rattle.std.specs.Prelude.{◌≡◌, map, IfOk};
ghost use Rattle.spl_tree.specs.Trees.{placed};
ghost use Rattle.language_model.specs.Flat.{flat_from};
ghost use Rattle.language_model.specs.Scopes.{At};
ghost use Rattle.spl_tree.specs.declared.unit.Composite.{Composite};
ghost use Rattle.composite_expand.specs.Expands.{Expands};
ghost use Rattle.composite_expand.specs.steps.Answers.{IsAnswer};
ghost use Rattle.composite_expand.specs.steps.Waiting.{IsFirstWaiting};
ghost use Rattle.composite_expand.specs.steps.Walks.{IsExpanded};
ghost use Rattle.stream_numbering.specs.Numbered.{IsNumbered};

use crate::answer::{ExpandAnswer, refused};
use crate::walk::{Walk, expand_main};
use composite_tables::{Composites, main_of};
use cycle_rules::{first_outside, first_recursion, topological_order};
use duplicate_rules::{declared_twice, same_file};
use language_model::{ExpansionError, ExpansionRefusal, Operation};
use spl_tree::{Graph, Placed, Unit};
use spl_value::{Items, Name, NoMemory};
use std::alloc::Global;
use stream_numbering::{Numbered, number_streams};

/// The operators, at their invocations, by their first streams.
fn labels_of(alloc: Global, ops: &[Operation]) -> Result<Items<Placed<Name>>, NoMemory>
    ensures { IfOk result (λ labels. labels ≡ map (λ op. placed op.at op.label) ops.now) }
{
    let mut labels = Items::new(alloc);
    for op in ops {
        labels.push(Placed {
            at: op.at,
            what: Items::from_slice(alloc, op.label.as_slice())?,
        })?;
    }
    Ok(labels)
}

/// The operators, streams and bodies of the expanded main composite.
fn numbered(alloc: Global, composites: &Composites<'_>, walk: Walk) -> Result<Numbered, NoMemory>
    ensures { IfOk result (λ parts. (main : At Composite) (is : IsExpanded composites.now.unit.now main walk) → IsNumbered is.made parts) }
{
    let Walk {
        opened: _,
        names: _,
        ops,
        bodies,
        inputs,
        connections: _,
        idle: _,
    } = walk;
    number_streams(alloc, composites, bodies.as_slice(), inputs.as_slice(), ops)
}

/// The label of the first operator that has no place in an order, of those whose labels these are.
fn first_waiting(mut labels: Items<Placed<Name>>, order: &[u32]) -> Option<Placed<Name>>
    ensures { IsFirstWaiting labels order.now result }
{
    match first_outside(order, labels.len()) {
        Some(op) => Some(labels.remove(op)),
        None => None,
    }
}

/// The graph of the expanded main composite.
fn graph_of(
    alloc: Global,
    composites: &Composites<'_>,
    names: &[Name],
    walk: Walk,
) -> Result<Graph, ExpandAnswer>
    ensures { (main : At Composite) → IsExpanded composites.now.unit.now main walk → IsAnswer (flat_from composites.now.unit.now names.now main) result }
{
    let labels = labels_of(alloc, walk.ops.as_slice())?;
    let parts = numbered(alloc, composites, walk)?;
    let topo = topological_order(alloc, parts.streams.as_slice(), parts.ops.as_slice())?;
    if let Some(name) = first_waiting(labels, topo.as_slice()) {
        return Err(refused(ExpansionError::Loop, name));
    }
    let expansions = parts.expansions.as_slice();
    let ops = parts.ops.as_slice();
    if let Some(file) = same_file(alloc, composites.unit, names, expansions, ops)? {
        return Err(refused(ExpansionError::SameFile, file));
    }
    Ok(Graph {
        ops: parts.ops,
        streams: parts.streams,
        expansions: parts.expansions,
        topo,
    })
}

/// The graph of a unit, in which each composite has been replaced by its body, from the main composite on;
/// or the first refusal: of names that are declared twice, of a missing main composite, of recursion,
/// of what invocations name and how many operators and connections they make, of operators that wait
/// for themselves, and of files that a FileSink has together with another operator or with `names`,
/// the file names of the command line that no sink may have.
pub fn expand(alloc: Global, unit: &Unit, names: &Items<Name>) -> Result<Graph, ExpandAnswer>
    ensures { Expands unit.now names.now result }
{
    if let Some(name) = declared_twice(alloc, unit)? {
        return Err(refused(ExpansionError::Twice, name));
    }
    let composites = Composites::new(alloc, unit)?;
    let Some(main) = main_of(&composites) else {
        return Err(ExpandAnswer::Refused(ExpansionRefusal {
            error: ExpansionError::NoMain,
            at: 0,
            name: None,
        }));
    };
    if let Some(name) = first_recursion(alloc, unit)? {
        return Err(refused(ExpansionError::Recursive, name));
    }
    let walk = match expand_main(alloc, &composites, main) {
        Ok(walk) => walk,
        Err(answer) => return Err(answer),
    };
    graph_of(alloc, &composites, names.as_slice(), walk)
}
