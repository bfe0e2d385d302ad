//! The choice of regions.
ghost use Rattle.std.specs.Prelude.{◌≡◌, ◌<◌, true, false, None, Some, IfOk, length, map, replicate, slice_get};
ghost use Rattle.language_model.specs.Keeping.{Keeps};
ghost use Rattle.stream_model.specs.CheckedMeaning.{graph_of};
ghost use Rattle.stream_model.specs.Meaning.{Graph};
ghost use Rattle.stream_model.specs.Operators.{Operator};
ghost use Rattle.stream_model.specs.Regions.{IsPlan, is_eligible};
ghost use Rattle.stream_model.specs.StateKinds.{state_of};
ghost use Rattle.region_choice.specs.steps.Counting.{AreReadings};
ghost use Rattle.region_choice.specs.steps.Growing.{region_of};
ghost use Rattle.region_choice.specs.steps.Ports.{entry_of};
ghost use Rattle.region_choice.specs.steps.Choices.{ending_at, ending_with, is_op_last, IsCandidate, IsOutside, IsPlaced, IsSettled, IsStanding, Joins, NoneTakes, region_before, sole_maker};

use crate::connections::readings;
use crate::growing::{Growing, grow, nothing, region_of};
use crate::operators::entry_of;
use language_model::Checked;
use spl_value::{Ids, Items, NoMemory};
use state_analysis::state_of;
use std::alloc::Global;
use stream_model::{Plan, StateKind};

/// The regions as they have grown so far.
#[derive(Drop)]
struct Choice {
    pub regions: Items<Growing>,
    /// The place of the region of each operator.
    pub places: Items<Option<usize>>,
}

/// No place for any operator.
fn nowhere(alloc: Global, operators: usize) -> Result<Items<Option<usize>>, NoMemory>
    ensures { IfOk result (λ places. places ≡ replicate operators None) }
{
    let mut places = Items::with_capacity(alloc, operators)?;
    'places: for _ in 0..operators {
        places.push(None)?;
    }
    Ok(places)
}

/// The operator that makes a stream, where one connection takes that.
fn sole_maker(checked: &Checked, counts: &Items<u32>, stream: u32) -> Option<u32>
    ensures { result ≡ sole_maker checked.now.graph.streams counts.now stream }
{
    match counts.get(stream as usize) {
        Some(1) => match checked.graph.streams.get(stream as usize) {
            Some(made) => Some(made.maker),
            None => None,
        },
        _ => None,
    }
}

fn is_op_last(op: u32, ops: &Ids) -> bool
    ensures { result ≡ is_op_last op ops.now }
{
    match ops.as_slice().last() {
        Some(last) => *last == op,
        None => false,
    }
}

/// The place, where the operator is the last of the region there.
fn ending_at(regions: &Items<Growing>, op: u32, at: usize) -> Option<usize>
    ensures { result ≡ ending_at regions.now op at }
{
    match regions.get(at) {
        Some(region) => {
            if is_op_last(op, &region.ops) {
                Some(at)
            } else {
                None
            }
        }
        None => None,
    }
}

/// The place of the region whose last operator it is.
fn ending_with(choice: &Choice, op: u32) -> Option<usize>
    ensures { result ≡ ending_with choice.now op }
{
    match choice.places.get(op as usize) {
        Some(Some(at)) => ending_at(&choice.regions, op, *at),
        _ => None,
    }
}

/// The place of the region whose last operator makes the stream, where one connection takes that.
fn region_before(
    checked: &Checked,
    counts: &Items<u32>,
    choice: &Choice,
    stream: u32,
) -> Option<usize>
    ensures { result ≡ region_before checked.now.graph.streams counts.now choice.now stream }
{
    match sole_maker(checked, counts, stream) {
        Some(maker) => ending_with(choice, maker),
        None => None,
    }
}

/// Adds an operator, which reads this stream, to the region whose last one it may follow.
fn join(
    alloc: Global,
    checked: &Checked,
    counts: &Items<u32>,
    choice: &mut Choice,
    op: u32,
    stream: u32,
    state: &StateKind,
) -> Result<bool, NoMemory>
    requires kept { Keeps checked.now }
    requires number { op < length checked.now.parts }
    requires standing { (g : Graph) → graph_of checked.now ≡ g → IsStanding g choice.old }
    ensures joins { IfOk result (λ joined. (g : Graph) (o : Operator) → graph_of checked.now ≡ g → IsCandidate g counts.now op stream state.now o
        → IsOutside choice.old op → Joins g choice.old op joined choice.new) }
    ensures stays { IfOk result (λ joined. joined ≡ false → choice.new ≡ choice.old) }
{
    let Some(at) = region_before(checked, counts, choice, stream) else {
        return Ok(false);
    };
    let joined = grow(alloc, checked, choice.regions.item_mut(at), op, state)?;
    if joined {
        choice.places.set(op as usize, Some(at));
    }
    Ok(joined)
}

/// Lets an operator begin a region. Alone it has a key or needs none.
fn begin(
    alloc: Global,
    checked: &Checked,
    choice: &mut Choice,
    op: u32,
    state: &StateKind,
) -> Result<(), NoMemory>
    requires kept { Keeps checked.now }
    requires number { op < length checked.now.parts }
    requires standing { (g : Graph) → graph_of checked.now ≡ g → IsStanding g choice.old }
    ensures { IfOk result (λ _. (g : Graph) (o : Operator) → graph_of checked.now ≡ g → slice_get g.ops op ≡ Some o → is_eligible o ≡ true
        → state_of o ≡ state.now → IsOutside choice.old op → NoneTakes g choice.old op
        → IsPlaced g choice.old op choice.new) }
{
    let mut region = nothing(alloc);
    grow(alloc, checked, &mut region, op, state)?;
    choice.places.set(op as usize, Some(choice.regions.len()));
    choice.regions.push(region)?;
    Ok(())
}

/// The stream that an operator with this state reads, where it may stand in a region.
fn entry(checked: &Checked, op: u32, state: &StateKind) -> Option<u32>
    ensures { (g : Graph) (o : Operator) → graph_of checked.now ≡ g → slice_get g.ops op ≡ Some o → result ≡ entry_of o.ins o.outs state.now }
{
    match checked.graph.ops.get(op as usize) {
        Some(own) => entry_of(own, state),
        None => None,
    }
}

/// Takes an operator into a region, where it may stand in one: into that whose last one it may follow, or
/// else into one that it begins.
fn settle(
    alloc: Global,
    checked: &Checked,
    counts: &Items<u32>,
    choice: &mut Choice,
    op: u32,
) -> Result<(), NoMemory>
    requires kept { Keeps checked.now }
    requires number { op < length checked.now.parts }
    requires many { length counts.now ≡ length checked.now.graph.streams }
    requires standing { (g : Graph) → graph_of checked.now ≡ g → IsStanding g choice.old }
    ensures { IfOk result (λ _. (g : Graph) → graph_of checked.now ≡ g → AreReadings g counts.now → IsOutside choice.old op
        → IsSettled g choice.old op choice.new) }
{
    let state = state_of(alloc, checked, op)?;
    let Some(stream) = entry(checked, op, &state) else {
        return Ok(());
    };
    if join(alloc, checked, counts, choice, op, stream, &state)? {
        Ok(())
    } else {
        begin(alloc, checked, choice, op, &state)
    }
}

/// The regions as they have grown.
fn plan_of(alloc: Global, regions: Items<Growing>) -> Result<Plan, NoMemory>
    ensures { IfOk result (λ plan. plan ≡ map region_of regions) }
{
    let mut plan = Items::with_capacity(alloc, regions.len())?;
    for region in regions.into_vec() {
        plan.push(region_of(region))?;
    }
    Ok(plan)
}

/// The regions of a graph: each operator that may stand in one, in topological order, joins the region of
/// the operator whose stream it alone reads, where that still has a key then or needs none, and begins a
/// region otherwise. The time that it takes grows with the operators, their connections and clauses.
pub fn choose(alloc: Global, checked: &Checked) -> Result<Plan, NoMemory>
    ensures plan { IfOk result (λ plan. (g : Graph) → graph_of checked.now ≡ g → IsPlan g plan) }
{
    let counts = readings(alloc, checked)?;
    let mut choice = Choice {
        regions: Items::new(alloc),
        places: nowhere(alloc, checked.graph.ops.len())?,
    };
    for op in checked.graph.topo.as_slice() {
        settle(alloc, checked, &counts, &mut choice, *op)?;
    }
    plan_of(alloc, choice.regions)
}
