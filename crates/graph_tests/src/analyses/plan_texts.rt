//! Plans as texts: `turns -: F G; pulses k,s: A` has two regions, each with its merge, its key and its
//! operators. A plan without regions is `none`.
use language_model::Checked;
use region_choice::choose;
use spl_value::{Places, Schema};
use std::alloc::Global;
use stream_model::{Merge, Region};
use test_texts::text::Text;

fn merge_word(merge: Merge) -> &'static str {
    match merge {
        Merge::Turns => "turns ",
        Merge::Numbers => "numbers ",
        Merge::Pulses => "pulses ",
    }
}

/// The attributes of the stream that the first operator of a region reads.
fn entry_of<'c>(checked: &'c Checked, region: &Region) -> Option<&'c Schema> {
    let op = checked.graph.ops.get(*region.ops.get(0)? as usize)?;
    let stream = op.ins.get(0)?.get(0)?;
    checked.schemas.get(*stream as usize)
}

fn add_key(text: &mut Text, entry: &Schema, key: &Places) {
    if key.is_empty() {
        text.add("-");
    }
    for (at, place) in key.as_slice().iter().enumerate() {
        text.add_between(at, ",");
        match entry.get(*place as usize) {
            Some(attribute) => text.add_bytes(attribute.name.as_slice()),
            None => text.add("?"),
        }
    }
    text.add(":");
}

fn add_region(text: &mut Text, checked: &Checked, region: &Region) {
    text.add(merge_word(region.merge));
    match entry_of(checked, region) {
        Some(entry) => add_key(text, entry, &region.key),
        None => text.add("?"),
    }
    for number in region.ops.as_slice() {
        text.add(" ");
        match checked.graph.ops.get(*number as usize) {
            Some(op) => text.add_bytes(op.name.as_slice()),
            None => text.add("?"),
        }
    }
}

pub(crate) fn add_plan(alloc: Global, text: &mut Text, checked: &Checked) {
    match choose(alloc, checked) {
        Ok(plan) if plan.is_empty() => text.add("none"),
        Ok(plan) => {
            for (at, region) in plan.as_slice().iter().enumerate() {
                text.add_between(at, "; ");
                add_region(text, checked, region);
            }
        }
        Err(_) => text.add("memory"),
    }
}
