//! What the heads around an operator say of its inputs.
ghost use Rattle.std.specs.Prelude.{◌≡◌, ◌≤◌, OnOk, IsTrue, length};
ghost use Rattle.language_model.specs.StreamTypes.{each_name, input_heads};
ghost use Rattle.language_model.specs.parts.StreamTypes.{invoked_input};
ghost use Rattle.language_model.specs.Finds.{Finds};
ghost use Rattle.body_sites.specs.Bodies.{body_seen};
ghost use Rattle.stream_rules.specs.steps.Looked.{HavePassed, PassesAlso, has_looked, nothing_looked};
ghost use Rattle.stream_rules.specs.steps.Among.{Hold, graph_of, unit_of};

use crate::ports::standing::{Streams, port_matches};
use body_sites::Body;
use language_model::TypeAnswer;
use spl_tree::{MOST_HEIGHT, Placed, Site};
use spl_value::{Attribute, Name, NoMemory};
use std::alloc::Global;
use std::collections::HashSet;
use written_types::narrow;

/// The ports of invocations that were looked at and passed, each by the heads that may still be around
/// it, its site and its number. Where each head has two inputs that the one around it feeds from two,
/// there are twice as many ways outwards with each head.
#[derive(Drop)]
pub(crate) struct Looked {
    ports: HashSet<(u32, u32, u32, u32)>,
}

impl Looked {
    fn new(alloc: Global) -> Looked
        ensures { nothing_looked result }
    {
        Looked {
            ports: HashSet::new(alloc),
        }
    }

    fn has(&self, left: u32, site: Site, port: u32) -> bool
        ensures { result ≡ has_looked self.now left site port }
    {
        self.ports
            .contains(&(left, site.expansion, site.invocation, port))
    }

    fn add(&mut self, left: u32, site: Site, port: u32) -> Result<(), NoMemory>
        ensures { OnOk result (PassesAlso self.old self.new left site port) }
    {
        self.ports
            .insert((left, site.expansion, site.invocation, port))?;
        Ok(())
    }
}

/// What the heads say whose inputs these names are.
#[cycle(heads)]
fn names_pass(
    alloc: Global,
    streams: &Streams,
    schema: &[Attribute],
    looked: &mut Looked,
    body: &Body,
    names: &[Placed<Name>],
    left: u32,
    levels: u32,
) -> Result<(), TypeAnswer>
    requires hold { Hold streams.now }
    requires passed { HavePassed (unit_of streams.now) (graph_of streams.now) schema.now looked.old }
    ensures found { Finds (each_name (input_heads left (unit_of streams.now) (graph_of streams.now) schema.now (body_seen body.now)) names.now) result }
    ensures looked { OnOk result (HavePassed (unit_of streams.now) (graph_of streams.now) schema.now looked.new) }
{
    for name in names {
        name_passes(
            alloc,
            streams,
            schema,
            looked,
            body,
            name.what.as_slice(),
            left,
            levels,
        )?;
    }
    Ok(())
}

/// What the head says whose input a name is, and those around it.
#[cycle(heads)]
fn name_passes(
    alloc: Global,
    streams: &Streams,
    schema: &[Attribute],
    looked: &mut Looked,
    body: &Body,
    name: &[u8],
    left: u32,
    levels: u32,
) -> Result<(), TypeAnswer>
    requires hold { Hold streams.now }
    requires passed { HavePassed (unit_of streams.now) (graph_of streams.now) schema.now looked.old }
    ensures found { Finds (input_heads left (unit_of streams.now) (graph_of streams.now) schema.now (body_seen body.now) name.now) result }
    ensures looked { OnOk result (HavePassed (unit_of streams.now) (graph_of streams.now) schema.now looked.new) }
{
    let Some(fewer) = left.checked_sub(1) else {
        return Ok(());
    };
    if body.own_place(name).is_some() {
        return Ok(());
    }
    let Some(place) = body.input_place(name) else {
        return Ok(());
    };
    let port = body.composite.inputs.get(place as usize);
    port_matches(alloc, streams, body, schema, port)?;
    let Some(site) = body.expansion.site else {
        return Ok(());
    };
    port_passes(alloc, streams, schema, looked, place, site, fewer, levels)
}

/// What the heads say whose inputs the names of an invocation's port are.
#[cycle(heads)]
fn port_passes(
    alloc: Global,
    streams: &Streams,
    schema: &[Attribute],
    looked: &mut Looked,
    port: u32,
    site: Site,
    left: u32,
    levels: u32,
) -> Result<(), TypeAnswer>
    requires hold { Hold streams.now }
    requires passed { HavePassed (unit_of streams.now) (graph_of streams.now) schema.now looked.old }
    ensures found { Finds (invoked_input (input_heads left (unit_of streams.now) (graph_of streams.now) schema.now) (unit_of streams.now) (graph_of streams.now) port site) result }
    ensures looked { OnOk result (HavePassed (unit_of streams.now) (graph_of streams.now) schema.now looked.new) }
{
    if looked.has(left, site, port) {
        return Ok(());
    }
    let Some(levels) = levels.checked_sub(1) else {
        return Err(TypeAnswer::Memory);
    };
    let Some(body) = streams
        .sites
        .body_among(streams.graph.expansions.as_slice(), site.expansion)
    else {
        return Ok(());
    };
    let Some(invocation) = body.composite.graph.get(site.invocation as usize) else {
        return Ok(());
    };
    let Some(input) = invocation.inputs.get(port as usize) else {
        return Ok(());
    };
    names_pass(
        alloc,
        streams,
        schema,
        looked,
        &body,
        input.streams.as_slice(),
        left,
        levels,
    )?;
    looked.add(left, site, port)?;
    Ok(())
}

/// What heads say of the names of a port, from the inside out, has to be these attributes.
pub(super) fn heads(
    alloc: Global,
    streams: &Streams,
    schema: &[Attribute],
    body: &Body,
    names: &[Placed<Name>],
) -> Result<(), TypeAnswer>
    requires { Hold streams.now }
    ensures { Finds (each_name (input_heads (length (graph_of streams.now).expansions) (unit_of streams.now) (graph_of streams.now) schema.now (body_seen body.now)) names.now) result }
{
    let mut looked = Looked::new(alloc);
    let left = narrow(streams.graph.expansions.len())?;
    names_pass(
        alloc,
        streams,
        schema,
        &mut looked,
        body,
        names,
        left,
        MOST_HEIGHT,
    )
}
