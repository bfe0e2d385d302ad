//! Outputs of operators, and what the heads around them say.
ghost use Rattle.std.specs.Prelude.{◌≡◌, length};
ghost use Rattle.language_model.specs.StreamTypes.{output_heads, outputs_attributes};
ghost use Rattle.language_model.specs.parts.StreamTypes.{outer_output};
ghost use Rattle.language_model.specs.Finds.{Finds};
ghost use Rattle.body_sites.specs.Bodies.{body_seen};
ghost use Rattle.stream_rules.specs.steps.Outside.{StandsOutside, output_found};
ghost use Rattle.stream_rules.specs.steps.Among.{Hold, graph_of, unit_of};

use super::standing::{Streams, attributes, port_matches, shape_matches};
use crate::origins::{Origin, output_at};
use body_sites::Body;
use language_model::TypeAnswer;
use spl_tree::OutputStream;
use spl_value::{Attribute, Items, Schema};
use std::alloc::Global;

/// What stands outside a stream of a body that is an output of its head: the output of the invocation.
/// What the head says of it has to be these attributes.
fn outside<'s>(
    alloc: Global,
    streams: &'s Streams,
    schema: &[Attribute],
    body: &Body,
    name: &[u8],
) -> Result<Option<Origin<'s>>, TypeAnswer>
    requires { Hold streams.now }
    ensures { StandsOutside (unit_of streams.now) (graph_of streams.now) schema.now (body_seen body.now) name.now result }
{
    let Some(place) = body.output_place(name) else {
        return Ok(None);
    };
    let port = body.composite.outputs.get(place as usize);
    port_matches(alloc, streams, body, schema, port)?;
    let Some(site) = body.expansion.site else {
        return Ok(None);
    };
    Ok(output_at(
        streams.sites,
        streams.graph.expansions.as_slice(),
        site,
        place,
    ))
}

/// What the output of an invocation says, and the heads around it, from the inside out, has to be these
/// attributes.
fn heads_around<'s>(
    alloc: Global,
    streams: &'s Streams,
    schema: &[Attribute],
    origin: Origin<'s>,
    count: usize,
) -> Result<(), TypeAnswer>
    requires { Hold streams.now }
    ensures { Finds (outer_output (output_heads count (unit_of streams.now) (graph_of streams.now) schema.now) (unit_of streams.now) (graph_of streams.now) schema.now (body_seen origin.entry.body) origin.entry.output.now) result }
{
    let mut at = origin;
    let mut left = count;
    'outwards: loop {
        let shape = &at.output.shape;
        shape_matches(alloc, streams, &at.body, schema, shape)?;
        let Some(fewer) = left.checked_sub(1) else {
            return Ok(());
        };
        left = fewer;
        let name = at.output.name.what.as_slice();
        let Some(next) = outside(alloc, streams, schema, &at.body, name)? else {
            return Ok(());
        };
        at = next;
    }
}

/// What heads say of an output has to be these attributes.
fn heads(
    alloc: Global,
    streams: &Streams,
    schema: &[Attribute],
    body: &Body,
    name: &[u8],
) -> Result<(), TypeAnswer>
    requires { Hold streams.now }
    ensures { Finds (output_heads (length (graph_of streams.now).expansions) (unit_of streams.now) (graph_of streams.now) schema.now (body_seen body.now) name.now) result }
{
    let Some(fewer) = streams.graph.expansions.len().checked_sub(1) else {
        return Ok(());
    };
    match outside(alloc, streams, schema, body, name)? {
        Some(origin) => heads_around(alloc, streams, schema, origin, fewer),
        None => Ok(()),
    }
}

/// The attributes of an output that makes this stream.
fn output_attributes(
    alloc: Global,
    streams: &Streams,
    body: &Body,
    output: &OutputStream,
    stream: u32,
) -> Result<Schema, TypeAnswer>
    requires { Hold streams.now }
    ensures { Finds (output_found (unit_of streams.now) (graph_of streams.now) (body_seen body.now) output.now stream) result }
{
    let schema = attributes(alloc, streams, stream)?;
    heads(
        alloc,
        streams,
        schema.as_slice(),
        body,
        output.name.what.as_slice(),
    )?;
    Ok(schema)
}

/// The attributes of an operator's outputs.
pub(super) fn outputs_attributes(
    alloc: Global,
    streams: &Streams,
    body: &Body,
    outputs: &[OutputStream],
    outs: &[u32],
) -> Result<Items<Schema>, TypeAnswer>
    requires { Hold streams.now }
    ensures { Finds (outputs_attributes (unit_of streams.now) (graph_of streams.now) (body_seen body.now) outputs.now outs.now) result }
{
    let mut schemas = Items::new(alloc);
    for (at, output) in outputs.iter().enumerate() {
        let Some(stream) = outs.get(at) else {
            return Ok(schemas);
        };
        schemas.push(output_attributes(alloc, streams, body, output, *stream)?)?;
    }
    Ok(schemas)
}
