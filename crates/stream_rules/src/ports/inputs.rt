//! Inputs of operators, and what the heads around them say.
ghost use Rattle.std.specs.Prelude.{◌≡◌, ◌<◌, ◌≤◌, length};
ghost use Rattle.language_model.specs.StreamTypes.{are_alike, name_places, port_attributes, ports_attributes, taken_by};
ghost use Rattle.language_model.specs.parts.StreamTypes.{so_often};
ghost use Rattle.language_model.specs.Expansion.{place_of};
ghost use Rattle.language_model.specs.Invoking.{stream_names};
ghost use Rattle.language_model.specs.Finds.{Finds};
ghost use Rattle.body_sites.specs.Bodies.{body_seen};
ghost use Rattle.stream_rules.specs.steps.Among.{Hold, graph_of, unit_of};

mod heads;

use super::standing::{Streams, attributes};
use crate::ports::same::same_attributes;
use body_sites::Body;
use heads::heads;
use language_model::{TypeAnswer, mismatch};
use spl_tree::InputPort;
use spl_value::{Attribute, Ids, Items, Schema};
use std::alloc::Global;

/// How many streams a name means.
fn taken_by(body: &Body, name: &[u8]) -> u32
    ensures { result ≡ taken_by (body_seen body.now) name.now (place_of name.now (stream_names body.now.composite.now)) }
{
    if body.own_place(name).is_some() {
        return 1;
    }
    let Some(place) = body.input_place(name) else {
        return 0;
    };
    match body.expansion.inputs.get(place as usize) {
        Some(input) => input.count,
        None => 0,
    }
}

/// The wanted number, or as many as there are where these are fewer.
fn fewest(wanted: u32, there: usize) -> usize
    ensures most { result ≤ wanted }
    ensures within { result ≤ there }
    ensures all { result < wanted → result ≡ there }
{
    let wanted = wanted as usize;
    if wanted < there { wanted } else { there }
}

/// Streams by a name at a place have to have these attributes.
fn row_alike(
    alloc: Global,
    streams: &Streams,
    schema: &[Attribute],
    at: u32,
    row: &[u32],
) -> Result<(), TypeAnswer>
    requires { Hold streams.now }
    ensures { Finds (are_alike (unit_of streams.now) (graph_of streams.now) schema.now (so_often (length row.now) at) row.now) result }
{
    for stream in row {
        let own = attributes(alloc, streams, *stream)?;
        if !same_attributes(own.as_slice(), schema) {
            return Err(mismatch(at));
        }
    }
    Ok(())
}

/// All streams of a port have to have these attributes.
fn are_alike(
    alloc: Global,
    streams: &Streams,
    schema: &[Attribute],
    body: &Body,
    port: &InputPort,
    row: &[u32],
) -> Result<(), TypeAnswer>
    requires { Hold streams.now }
    ensures { Finds (are_alike (unit_of streams.now) (graph_of streams.now) schema.now (name_places (body_seen body.now) port.now) row.now) result }
{
    let mut left = row;
    for name in port.streams.as_slice() {
        let taken = fewest(taken_by(body, name.what.as_slice()), left.len());
        row_alike(alloc, streams, schema, name.at, &left[..taken])?;
        left = &left[taken..];
    }
    Ok(())
}

/// The attributes of a port that takes these streams.
fn port_attributes(
    alloc: Global,
    streams: &Streams,
    body: &Body,
    port: &InputPort,
    row: &[u32],
) -> Result<Schema, TypeAnswer>
    requires { Hold streams.now }
    ensures { Finds (port_attributes (unit_of streams.now) (graph_of streams.now) (body_seen body.now) port.now row.now) result }
{
    let Some(first) = row.first() else {
        return Err(mismatch(0));
    };
    let schema = attributes(alloc, streams, *first)?;
    are_alike(alloc, streams, schema.as_slice(), body, port, row)?;
    heads(
        alloc,
        streams,
        schema.as_slice(),
        body,
        port.streams.as_slice(),
    )?;
    Ok(schema)
}

/// The attributes of an operator's inputs.
pub(super) fn ports_attributes(
    alloc: Global,
    streams: &Streams,
    body: &Body,
    ports: &[InputPort],
    ins: &[Ids],
) -> Result<Items<Schema>, TypeAnswer>
    requires { Hold streams.now }
    ensures { Finds (ports_attributes (unit_of streams.now) (graph_of streams.now) (body_seen body.now) ports.now ins.now) result }
{
    let mut schemas = Items::new(alloc);
    for (at, port) in ports.iter().enumerate() {
        let Some(row) = ins.get(at) else {
            return Ok(schemas);
        };
        schemas.push(port_attributes(alloc, streams, body, port, row.as_slice())?)?;
    }
    Ok(schemas)
}
