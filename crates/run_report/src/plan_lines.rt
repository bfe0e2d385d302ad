//! The text of a plan.
ghost use Rattle.std.specs.Prelude.{◌≡◌, ◌++◌, flat_map, codes, Some, IfOk, OnOk};
ghost use Rattle.std.specs.List.{list_any};
ghost use Rattle.run_report.specs.Texts.{operator_name};
ghost use Rattle.run_report.specs.PlanTexts.{merge_text, read_schema, region_schema, attribute_name, key_text, region_text, is_first, begun_text, stands_in, operator_text, plan_text};

use crate::status::operator;
use itoa::Buffer;
use language_model::Checked;
use spl_value::{Attribute, Bytes, Items, NoMemory};
use std::alloc::Global;
use stream_model::{Merge, Plan, Region};

// How the outputs of the replicas are put in order, as it is told.
fn merge_word(merge: Merge) -> &'static [u8]
    ensures { result.now ≡ merge_text merge }
{
    match merge {
        Merge::Turns => b"turns",
        Merge::Numbers => b"numbers",
        Merge::Pulses => b"pulses",
    }
}

// The attributes of the stream that an operator reads by its first port. There are none where it reads
// none or isn't there.
fn read_schema(checked: &Checked, number: u32) -> &[Attribute]
    ensures { result.now ≡ read_schema checked.now number }
{
    let Some(op) = checked.graph.ops.get(number as usize) else {
        return &[];
    };
    let Some(streams) = op.ins.get(0) else {
        return &[];
    };
    let Some(stream) = streams.get(0) else {
        return &[];
    };
    match checked.schemas.get(*stream as usize) {
        Some(schema) => schema.as_slice(),
        None => &[],
    }
}

// The attributes of the stream that a region of these operators reads.
fn region_schema<'c>(checked: &'c Checked, ops: &[u32]) -> &'c [Attribute]
    ensures { result.now ≡ region_schema checked.now ops.now }
{
    match ops {
        [first, ..] => read_schema(checked, *first),
        [] => &[],
    }
}

// An attribute's name. Where there is no such attribute, it is empty.
fn attribute_name(schema: &[Attribute], place: u32) -> &[u8]
    ensures { result.now ≡ attribute_name schema.now place }
{
    match schema.get(place as usize) {
        Some(attribute) => attribute.name.as_slice(),
        None => &[],
    }
}

// Adds the names of attributes, a comma before each.
fn add_later(text: &mut Vec<u8>, schema: &[Attribute], places: &[u32]) -> Result<(), NoMemory>
    ensures { OnOk result (text.new.items ≡ text.old.items
        ++ flat_map (λ later. codes "," ++ attribute_name schema.now later) places.now) }
{
    for place in places {
        text.extend_from_slice(b",")?;
        text.extend_from_slice(attribute_name(schema, *place))?;
    }
    Ok(())
}

// Adds the names of a key's attributes.
fn add_key(text: &mut Vec<u8>, schema: &[Attribute], key: &[u32]) -> Result<(), NoMemory>
    ensures { OnOk result (text.new.items ≡ text.old.items ++ key_text schema.now key.now) }
{
    match key {
        [first, later @ ..] => {
            text.extend_from_slice(attribute_name(schema, *first))?;
            add_later(text, schema, later)
        }
        [] => {
            text.extend_from_slice(b"-")?;
            Ok(())
        }
    }
}

// Adds the names of operators, a blank before each.
fn add_names(text: &mut Vec<u8>, checked: &Checked, ops: &[u32]) -> Result<(), NoMemory>
    ensures { OnOk result (text.new.items ≡ text.old.items
        ++ flat_map (λ n. codes " " ++ operator_name (Some checked.now) n) ops.now) }
{
    for op in ops {
        text.extend_from_slice(b" ")?;
        text.extend_from_slice(operator(Some(checked), *op))?;
    }
    Ok(())
}

// Adds the line of a region with this number.
fn add_region(
    text: &mut Vec<u8>,
    checked: &Checked,
    number: usize,
    region: &Region,
) -> Result<(), NoMemory>
    ensures { OnOk result
        (text.new.items ≡ text.old.items ++ region_text checked.now number region.now) }
{
    let mut digits = Buffer::new();
    let ops = region.ops.as_slice();
    text.extend_from_slice(b"region ")?;
    text.extend_from_slice(digits.format(number).as_bytes())?;
    text.extend_from_slice(b" merge ")?;
    text.extend_from_slice(merge_word(region.merge))?;
    text.extend_from_slice(b" key ")?;
    add_key(text, region_schema(checked, ops), region.key.as_slice())?;
    text.extend_from_slice(b":")?;
    add_names(text, checked, ops)?;
    text.extend_from_slice(b"\n")?;
    Ok(())
}

// Whether an operator is the first of these.
fn is_first(op: u32, ops: &[u32]) -> bool
    ensures { result ≡ is_first op ops.now }
{
    match ops {
        [first, ..] => *first == op,
        [] => false,
    }
}

// Adds the lines of the regions that an operator begins.
fn add_begun(
    text: &mut Vec<u8>,
    checked: &Checked,
    op: u32,
    regions: &[Region],
) -> Result<(), NoMemory>
    ensures { OnOk result
        (text.new.items ≡ text.old.items ++ begun_text checked.now op 0 regions.now) }
{
    for (number, region) in regions.iter().enumerate() {
        if is_first(op, region.ops.as_slice()) {
            add_region(text, checked, number, region)?;
        }
    }
    Ok(())
}

fn stands_in(op: u32, region: &Region) -> bool
    ensures { result ≡ stands_in op region.now }
{
    region.ops.as_slice().iter().any(|other| *other == op)
}

// Whether an operator stands in one of these regions.
fn is_in_some(op: u32, regions: &[Region]) -> bool
    ensures { result ≡ list_any (stands_in op) regions.now }
{
    regions.iter().any(|region| stands_in(op, region))
}

// Adds the line of an operator that stands in no region.
fn add_single(text: &mut Vec<u8>, checked: &Checked, op: u32) -> Result<(), NoMemory>
    ensures { OnOk result (text.new.items ≡ text.old.items
        ++ codes "single " ++ operator_name (Some checked.now) op ++ codes "\n") }
{
    text.extend_from_slice(b"single ")?;
    text.extend_from_slice(operator(Some(checked), op))?;
    text.extend_from_slice(b"\n")?;
    Ok(())
}

// Adds the line that stands in the place of an operator, if there is one.
fn add_operator(text: &mut Vec<u8>, checked: &Checked, plan: &Plan, op: u32) -> Result<(), NoMemory>
    ensures { OnOk result
        (text.new.items ≡ text.old.items ++ operator_text checked.now plan.now op) }
{
    if is_in_some(op, plan.as_slice()) {
        add_begun(text, checked, op, plan.as_slice())
    } else {
        add_single(text, checked, op)
    }
}

/// The text of a plan. The operators stand in topological order: a region has a line in the place of its
/// first operator, with its number in the plan, its merge, its key and its operators, and each operator
/// that stands in no region has a line of its own. A name is empty where the operator or the attribute
/// isn't there.
pub fn plan_text(alloc: Global, checked: &Checked, plan: &Plan) -> Result<Bytes, NoMemory>
    ensures { IfOk result (λ text. text ≡ plan_text checked.now plan.now) }
{
    let mut text = Vec::new(alloc);
    for op in checked.graph.topo.as_slice() {
        add_operator(&mut text, checked, plan, *op)?;
    }
    Ok(Items::from_vec(text))
}
