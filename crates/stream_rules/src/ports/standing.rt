//! What shapes in bodies mean, among the streams of a graph.
ghost use Rattle.std.specs.Prelude.{◌≡◌};
ghost use Rattle.std.specs.Option.{option_copied};
ghost use Rattle.language_model.specs.StreamTypes.{shape_attributes, shape_matches, stream_attributes};
ghost use Rattle.language_model.specs.parts.StreamTypes.{port_matches};
ghost use Rattle.language_model.specs.Finds.{Finds};
ghost use Rattle.stream_rules.specs.steps.Among.{Hold, graph_of, unit_of};
ghost use Rattle.body_sites.specs.Bodies.{body_seen};

use crate::ports::same::same_attributes;
use crate::refusals::unknown;
use crate::streams::{StreamTable, own_attributes};
use body_sites::{Body, Sites};
use language_model::{TypeAnswer, mismatch};
use spl_tree::{Graph, HeadPort, Shape};
use spl_value::{Attribute, Schema};
use std::alloc::Global;

/// A graph with the table of its streams.
#[derive(Clone, Copy)]
pub(crate) struct Streams<'s> {
    pub(crate) sites: &'s Sites<'s>,
    pub(crate) graph: &'s Graph,
    pub(crate) table: &'s StreamTable,
}

/// The attributes of a stream.
pub(super) fn attributes(
    alloc: Global,
    streams: &Streams,
    stream: u32,
) -> Result<Schema, TypeAnswer>
    requires { Hold streams.now }
    ensures { Finds (stream_attributes (unit_of streams.now) (graph_of streams.now) stream) result }
{
    streams.table.attributes(alloc, stream)
}

/// The attributes of a shape in a body.
fn given(alloc: Global, streams: &Streams, body: &Body, shape: &Shape) -> Result<Schema, TypeAnswer>
    requires { Hold streams.now }
    ensures { Finds (shape_attributes (stream_attributes (unit_of streams.now) (graph_of streams.now)) (unit_of streams.now) (graph_of streams.now) (body_seen body.now) shape.now) result }
{
    let Some((stream, name)) = body.named_stream(streams.sites, shape) else {
        return own_attributes(alloc, streams.sites, body, shape);
    };
    if streams.table.leads_back(stream) {
        return Err(unknown(alloc, shape.at, name));
    }
    attributes(alloc, streams, stream)
}

/// A shape has to have these attributes.
pub(super) fn shape_matches(
    alloc: Global,
    streams: &Streams,
    body: &Body,
    schema: &[Attribute],
    shape: &Shape,
) -> Result<(), TypeAnswer>
    requires { Hold streams.now }
    ensures { Finds (shape_matches (unit_of streams.now) (graph_of streams.now) (body_seen body.now) schema.now shape.now) result }
{
    let given = given(alloc, streams, body, shape)?;
    if same_attributes(given.as_slice(), schema) {
        Ok(())
    } else {
        Err(mismatch(shape.at))
    }
}

/// The shape of the port of a head, where it has one, has to have these attributes.
pub(super) fn port_matches(
    alloc: Global,
    streams: &Streams,
    body: &Body,
    schema: &[Attribute],
    port: Option<&HeadPort>,
) -> Result<(), TypeAnswer>
    requires { Hold streams.now }
    ensures { Finds (port_matches (unit_of streams.now) (graph_of streams.now) (body_seen body.now) schema.now (option_copied port.entry)) result }
{
    let Some(port) = port else {
        return Ok(());
    };
    match &port.shape {
        Some(shape) => shape_matches(alloc, streams, body, schema, shape),
        None => Ok(()),
    }
}
