//! Regions to which operators are added.
ghost use Rattle.std.specs.Prelude.{◌≡◌, ◌<◌, ◌++◌, [], ◌∷◌, false, Some, IfOk, length, map, slice_get};
ghost use Rattle.attribute_flow.specs.Chains.{AreNumbers, traced};
ghost use Rattle.stream_model.specs.CheckedMeaning.{graph_of};
ghost use Rattle.stream_model.specs.Meaning.{Graph};
ghost use Rattle.stream_model.specs.Operators.{Operator};
ghost use Rattle.stream_model.specs.Regions.{entry_attributes, numbers_to, ops_of};
ghost use Rattle.stream_model.specs.parts.Regions.{is_one_each};
ghost use Rattle.stream_model.specs.StateKinds.{state_of};
ghost use Rattle.stream_model.specs.declared.plan.StateKind.TheVariants as K;
ghost use Rattle.region_choice.specs.steps.Growing.{added, first_or, Grows, IsGrown, key_source, key_with, LeadsBack, merge_of, nothing, region_of};

use crate::keys::{KeySource, first_key, kept_key, source_at};
use crate::operators::input_width;
use attribute_flow::trace;
use language_model::Checked;
use selectivity_rules::gives;
use spl_value::{Ids, Items, NoMemory, Places};
use std::alloc::Global;
use stream_model::{Gives, Merge, Region, StateKind};

/// A region, as far as it has grown.
#[derive(Drop)]
pub(crate) struct Growing {
    pub ops: Ids,
    pub key: Places,
    /// Whether one of its operators is Keyed.
    pub keyed: bool,
    /// Whether each of its operators gives one item for each event.
    pub one_each: bool,
    /// Its operators from the last Keyed one on, or all where none is.
    pub segment: Ids,
    /// The keys of that operator, or none.
    pub sources: Items<KeySource>,
}

/// A region without operators.
pub(crate) fn nothing(alloc: Global) -> Growing
    ensures { result ≡ nothing }
{
    Growing {
        ops: Items::new(alloc),
        key: Items::new(alloc),
        keyed: false,
        one_each: true,
        segment: Items::new(alloc),
        sources: Items::new(alloc),
    }
}

/// The attribute of the stream that the region reads of which an attribute of its last stream is a copy.
fn led_back(checked: &Checked, growing: &Growing, attribute: u32) -> Option<u32>
    requires numbers { (g : Graph) → graph_of checked.now ≡ g → AreNumbers g growing.now.segment }
    ensures { (g : Graph) → graph_of checked.now ≡ g → LeadsBack g growing.now → result ≡ traced g growing.now.ops attribute }
{
    match trace(checked, &growing.segment, attribute) {
        Some(place) if growing.keyed => source_at(growing.sources.as_slice(), place),
        source => source,
    }
}

/// What an operator's keys, at these places of the region's last stream, are copies of.
fn key_sources(
    alloc: Global,
    checked: &Checked,
    growing: &Growing,
    places: &Places,
) -> Result<Items<KeySource>, NoMemory>
    requires numbers { (g : Graph) → graph_of checked.now ≡ g → AreNumbers g growing.now.segment }
    ensures { IfOk result (λ sources. (g : Graph) → graph_of checked.now ≡ g → LeadsBack g growing.now
        → sources ≡ map (key_source g growing.now.ops) places.now) }
{
    let mut sources = Items::with_capacity(alloc, places.len())?;
    for place in places.as_slice() {
        sources.push(KeySource {
            place: *place,
            source: led_back(checked, growing, *place),
        })?;
    }
    Ok(sources)
}

/// The first of these operators, or else the one after them.
fn first_or(op: u32, ops: &Ids) -> u32
    ensures { result ≡ first_or op ops.now }
{
    match ops.get(0) {
        Some(first) => *first,
        None => op,
    }
}

/// How many attributes the stream has that the region reads with this operator more.
fn entry_width(checked: &Checked, growing: &Growing, op: u32) -> usize
    ensures { (g : Graph) (o : Operator) → graph_of checked.now ≡ g → slice_get g.ops op ≡ Some o → AreNumbers g growing.now.ops
        → numbers_to result ≡ entry_attributes (ops_of g (growing.now.ops ++ op ∷ [])) }
{
    let first = first_or(op, &growing.ops);
    match checked.graph.ops.get(first as usize) {
        Some(first) => input_width(checked, first),
        None => 0,
    }
}

/// The key with a Keyed operator more, whose keys are copies of these attributes.
fn key_with(
    alloc: Global,
    checked: &Checked,
    growing: &Growing,
    op: u32,
    sources: &[KeySource],
) -> Result<Places, NoMemory>
    ensures { IfOk result (λ key. (g : Graph) (o : Operator) → graph_of checked.now ≡ g → slice_get g.ops op ≡ Some o → AreNumbers g growing.now.ops
        → key ≡ key_with growing.now sources.now (entry_attributes (ops_of g (growing.now.ops ++ op ∷ [])))) }
{
    if growing.keyed {
        kept_key(alloc, &growing.key, sources)
    } else {
        first_key(alloc, entry_width(checked, growing, op), sources)
    }
}

/// Adds an operator after the last one.
fn add(checked: &Checked, growing: &mut Growing, op: u32) -> Result<(), NoMemory>
    requires number { op < length checked.now.parts }
    ensures { IfOk result (λ _. (g : Graph) (o : Operator) → graph_of checked.now ≡ g → slice_get g.ops op ≡ Some o
        → growing.new ≡ added o op growing.old) }
{
    growing.ops.push(op)?;
    growing.segment.push(op)?;
    growing.one_each = growing.one_each && matches!(gives(checked, op), Gives::One);
    Ok(())
}

/// Adds a Keyed operator, where the region has a key with it.
fn grow_keyed(
    alloc: Global,
    checked: &Checked,
    growing: &mut Growing,
    op: u32,
    places: &Places,
) -> Result<bool, NoMemory>
    requires number { op < length checked.now.parts }
    requires numbers { (g : Graph) → graph_of checked.now ≡ g → AreNumbers g growing.old.segment }
    ensures grows { IfOk result (λ taken. (g : Graph) (o : Operator) → graph_of checked.now ≡ g → slice_get g.ops op ≡ Some o
        → state_of o ≡ K.Keyed places.now → IsGrown g growing.old → Grows g growing.old op taken growing.new) }
    ensures stays { IfOk result (λ taken. taken ≡ false → growing.new ≡ growing.old) }
{
    let sources = key_sources(alloc, checked, growing, places)?;
    let key = key_with(alloc, checked, growing, op, sources.as_slice())?;
    if key.is_empty() {
        return Ok(false);
    }
    growing.key = key;
    growing.keyed = true;
    growing.sources = sources;
    growing.segment.clear();
    add(checked, growing, op)?;
    Ok(true)
}

/// Adds an operator with this state after the last one, where the region has a key with it or needs none.
pub(crate) fn grow(
    alloc: Global,
    checked: &Checked,
    growing: &mut Growing,
    op: u32,
    state: &StateKind,
) -> Result<bool, NoMemory>
    requires number { op < length checked.now.parts }
    requires numbers { (g : Graph) → graph_of checked.now ≡ g → AreNumbers g growing.old.segment }
    ensures grows { IfOk result (λ taken. (g : Graph) (o : Operator) → graph_of checked.now ≡ g → slice_get g.ops op ≡ Some o
        → state_of o ≡ state.now → IsGrown g growing.old → Grows g growing.old op taken growing.new) }
    ensures stays { IfOk result (λ taken. taken ≡ false → growing.new ≡ growing.old) }
{
    match state {
        StateKind::Keyed(places) => grow_keyed(alloc, checked, growing, op, places),
        StateKind::Stateless | StateKind::Whole => {
            add(checked, growing, op)?;
            Ok(true)
        }
    }
}

/// How the outputs of replicas of a region are put in order.
fn merge_of(keyed: bool, one_each: bool) -> Merge
    ensures { result ≡ merge_of keyed one_each }
{
    if !one_each {
        Merge::Pulses
    } else if keyed {
        Merge::Numbers
    } else {
        Merge::Turns
    }
}

/// The region as it has grown.
pub(crate) fn region_of(growing: Growing) -> Region
    ensures { result ≡ region_of growing }
{
    let Growing {
        ops,
        key,
        keyed,
        one_each,
        ..
    } = growing;
    Region {
        ops,
        key,
        merge: merge_of(keyed, one_each),
    }
}
