//! The inputs and outputs of elements.
ghost use Rattle.std.specs.Prelude.{◌≡◌, ◌<◌, ◌^◌, ◌++◌, ℕ, IfOk, OnOk, length, map, replicate, slice_get};
ghost use Rattle.std.specs.Option.{option_and_then};
ghost use Rattle.stream_model.specs.CheckedMeaning.{schema_at};
ghost use Rattle.pe_fusion.specs.ElementPorts.{channels_of, first_ins, ins_by, ports_of, read_schemas, rows_stream, schema_of, source_of, source_stream};
ghost use Rattle.pe_fusion.specs.FusedNets.{first_stream};
ghost use Rattle.pe_fusion.specs.steps.Building.{last_outs};
ghost use Rattle.pe_fusion.specs.steps.Reading.{read_by};
ghost use Rattle.pe_fusion.specs.steps.Ports.{fans_with, ports_with};

use crate::links::{last_outs, read_by};
use crate::ports::ElementPorts;
use crate::readers::{Readers, readers};
use language_model::{Checked, CheckedClauses};
use spl_tree::Op;
use spl_value::{Ids, Items, NoMemory, Schema, copy_schema};
use std::alloc::Global;
use stream_model::{Plan, Role, Shape, ShapeElement, width_of};

/// The streams of each input port of the first of these operators.
fn first_ins<'o>(ops: &'o Items<Op>, ids: &Ids) -> &'o [Ids]
    ensures { result.now ≡ first_ins ops.now ids.now }
{
    match ids.get(0) {
        Some(first) => match ops.get(*first as usize) {
            Some(op) => op.ins.as_slice(),
            None => &[],
        },
        None => &[],
    }
}

fn first_stream(streams: &[u32]) -> u32
    ensures { result ≡ first_stream streams.now }
{
    match streams.get(0) {
        Some(stream) => *stream,
        None => 0,
    }
}

/// The number of channels of a region of the plan.
fn channels_of(plan: &Plan, width: u32, region: Option<u32>) -> u32
    ensures { result ≡ channels_of plan.now width region }
{
    match region {
        Some(place) => match plan.get(place as usize) {
            Some(own) => width_of(own, width),
            None => 0,
        },
        None => 0,
    }
}

// ---- attributes

/// The attributes of a stream.
fn schema_at(alloc: Global, checked: &Checked, stream: u32) -> Result<Schema, NoMemory>
    ensures { IfOk result (λ schema. schema ≡ schema_at checked.now stream) }
{
    match checked.schemas.get(stream as usize) {
        Some(schema) => copy_schema(alloc, schema.as_slice()),
        None => Ok(Items::new(alloc)),
    }
}

/// Adds the attributes of these streams.
fn add_schemas(
    alloc: Global,
    checked: &Checked,
    schemas: &mut Items<Schema>,
    streams: &[u32],
) -> Result<(), NoMemory>
    ensures { OnOk result (schemas.new ≡ schemas.old ++ map (schema_at checked.now) streams.now) }
{
    for stream in streams {
        schemas.push(schema_at(alloc, checked, *stream)?)?;
    }
    Ok(())
}

/// The attributes of the streams that the first of these operators reads.
fn read_schemas(alloc: Global, checked: &Checked, ids: &Ids) -> Result<Items<Schema>, NoMemory>
    ensures { IfOk result (λ schemas. schemas ≡ read_schemas checked.now ids.now) }
{
    let mut schemas = Items::new(alloc);
    for port in first_ins(&checked.graph.ops, ids) {
        add_schemas(alloc, checked, &mut schemas, port.as_slice())?;
    }
    Ok(schemas)
}

/// The attributes of a stream, so many times.
fn same_schemas(
    alloc: Global,
    checked: &Checked,
    stream: u32,
    many: u32,
) -> Result<Items<Schema>, NoMemory>
    ensures { IfOk result (λ schemas. schemas ≡ replicate many (schema_at checked.now stream)) }
{
    let mut schemas = Items::new(alloc);
    'many: for _ in 0..many {
        schemas.push(schema_at(alloc, checked, stream)?)?;
    }
    Ok(schemas)
}

/// The attributes at each input.
fn ins_by(
    alloc: Global,
    checked: &Checked,
    role: Role,
    width: u32,
    ids: &Ids,
) -> Result<Items<Schema>, NoMemory>
    ensures { IfOk result (λ ins. ins ≡ ins_by checked.now role width ids.now) }
{
    match role {
        Role::Chain | Role::Splitter | Role::Replica(_) => read_schemas(alloc, checked, ids),
        Role::Merger => {
            let stream = first_stream(last_outs(&checked.graph.ops, ids));
            same_schemas(alloc, checked, stream, width)
        }
    }
}

/// The stream of an operator that is a source.
fn rows_stream(part: &CheckedClauses, outs: &Ids) -> Option<u32>
    ensures { result ≡ rows_stream part.now outs.now }
{
    match part {
        CheckedClauses::FileSource { file: _, strict: _ } => Some(first_stream(outs.as_slice())),
        _ => None,
    }
}

fn source_stream(checked: &Checked, op: u32) -> Option<u32>
    ensures { result ≡ source_stream checked.now op }
{
    match checked.parts.get(op as usize) {
        Some(part) => match checked.graph.ops.get(op as usize) {
            Some(own) => rows_stream(part, &own.outs),
            None => None,
        },
        None => None,
    }
}

/// The stream of the source with which these operators begin.
fn first_rows(checked: &Checked, ids: &Ids) -> Option<u32>
    ensures { result ≡ option_and_then (source_stream checked.now) (slice_get ids.now 0) }
{
    match ids.get(0) {
        Some(first) => source_stream(checked, *first),
        None => None,
    }
}

/// The attributes of the source with which these operators begin.
fn source_of(alloc: Global, checked: &Checked, ids: &Ids) -> Result<Option<Schema>, NoMemory>
    ensures { IfOk result (λ source. source ≡ source_of checked.now ids.now) }
{
    match first_rows(checked, ids) {
        Some(stream) => Ok(Some(schema_at(alloc, checked, stream)?)),
        None => Ok(None),
    }
}

// ---- connections

/// How many connections these streams have.
fn counts(alloc: Global, readers: &Readers, outs: &[u32]) -> Result<Ids, NoMemory>
    requires { (s : ℕ) → length (read_by readers.now s) < 2 ^ 32 }
    ensures { IfOk result (λ counts. counts ≡ map (λ s. length (read_by readers.now s)) outs.now) }
{
    let mut counts = Items::new(alloc);
    for stream in outs {
        counts.push(read_by(readers, *stream).len() as u32)?;
    }
    Ok(counts)
}

/// So many ones.
fn ones(alloc: Global, many: u32) -> Result<Ids, NoMemory>
    ensures { IfOk result (λ ones. ones ≡ replicate many 1) }
{
    let mut ones = Items::new(alloc);
    'ones: for _ in 0..many {
        ones.push(1)?;
    }
    Ok(ones)
}

/// The connections of each output port.
fn fans_by(
    alloc: Global,
    readers: &Readers,
    role: Role,
    width: u32,
    outs: &[u32],
) -> Result<Ids, NoMemory>
    requires { (s : ℕ) → length (read_by readers.now s) < 2 ^ 32 }
    ensures { IfOk result (λ fans. fans ≡ fans_with readers.now role width outs.now) }
{
    match role {
        Role::Chain | Role::Merger => counts(alloc, readers, outs),
        Role::Splitter => ones(alloc, width),
        Role::Replica(_) => ones(alloc, 1),
    }
}

/// The inputs and outputs of an element.
fn ports_of(
    alloc: Global,
    checked: &Checked,
    plan: &Plan,
    width: u32,
    readers: &Readers,
    element: &ShapeElement,
) -> Result<ElementPorts, NoMemory>
    requires { (s : ℕ) → length (read_by readers.now s) < 2 ^ 32 }
    ensures { IfOk result (λ ports. ports ≡ ports_with checked.now plan.now width readers.now element.now) }
{
    let channels = channels_of(plan, width, element.region);
    let outs = last_outs(&checked.graph.ops, &element.ids);
    Ok(ElementPorts {
        ids: Items::from_slice(alloc, element.ids.as_slice())?,
        ins: ins_by(alloc, checked, element.role, channels, &element.ids)?,
        fans: fans_by(alloc, readers, element.role, channels, outs)?,
        source: source_of(alloc, checked, &element.ids)?,
    })
}

/// The inputs and outputs of each element of a shape into which the graph is fused. The time that it takes grows
/// with the elements, their operators and their connections.
pub fn element_ports(
    alloc: Global,
    checked: &Checked,
    plan: &Plan,
    width: u32,
    shape: &Shape,
) -> Result<Items<ElementPorts>, NoMemory>
    ensures { IfOk result (λ all. all ≡ map (ports_of checked.now plan.now width) shape.now.elements) }
{
    let readers = readers(alloc, checked)?;
    let mut all = Items::with_capacity(alloc, shape.elements.len())?;
    for element in shape.elements.as_slice() {
        all.push(ports_of(alloc, checked, plan, width, &readers, element)?)?;
    }
    Ok(all)
}
