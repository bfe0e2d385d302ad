//! The attributes of the streams of a graph.
ghost use Rattle.std.specs.Prelude.{◌≡◌, IfOk};
ghost use Rattle.spl_value.specs.declared.types.SplType.TheViews.{out-SplType};
ghost use Rattle.language_model.specs.StreamTypes.{level_attributes, stream_attributes};
ghost use Rattle.language_model.specs.TypeNames.{composite_types, shape_meant};
ghost use Rattle.language_model.specs.Typing.{after};
ghost use Rattle.language_model.specs.Finds.{Finds};
ghost use Rattle.stream_rules.specs.steps.Origins.{IsLed};
ghost use Rattle.stream_rules.specs.Streams.{IsTableOf};
ghost use Rattle.stream_rules.specs.FoundStreams.{AreFound};

mod reading;

use crate::origins::{Leads, origin_of};
use crate::refusals::unknown;
use body_sites::{Body, Sites};
use language_model::{CheckRefusal, TypeAnswer, mismatch};
use spl_tree::{Graph, Shape};
use spl_value::{NoMemory, Schema, SplType};
use std::alloc::Global;
use written_types::{narrow, shape_of};

/// The attributes of each stream of a graph, or its refusal. It is made once for all operators.
pub struct StreamTable {
    /// Whether each leads back to itself by its shape.
    back: Vec<bool>,
    found: Vec<Result<Schema, CheckRefusal>>,
}

impl Drop for StreamTable {
    fn drop(self) {
        let StreamTable { back: _, found: _ } = self;
    }
}

/// The attributes of a type at a place, which has to be a tuple.
fn attributes_of_tuple(kind: SplType, at: u32) -> Result<Schema, TypeAnswer>
    ensures { Finds (level_attributes at (out-SplType kind)) result }
{
    let Some(schema) = kind.into_schema() else {
        return Err(mismatch(at));
    };
    Ok(schema)
}

/// The attributes of a shape that is no name of a stream.
pub(crate) fn own_attributes(
    alloc: Global,
    sites: &Sites,
    body: &Body,
    shape: &Shape,
) -> Result<Schema, TypeAnswer>
    ensures { Finds (after (shape_meant (composite_types sites.now.unit.now body.now.composite.now) shape.now)
        (λ t. level_attributes shape.now.at (out-SplType t))) result }
{
    let kind = shape_of(alloc, &body.types(sites), shape)?;
    attributes_of_tuple(kind, shape.at)
}

/// The attributes of a stream, by the last in the row of those that it leads to.
fn attributes(
    alloc: Global,
    sites: &Sites,
    graph: &Graph,
    leads: &Leads,
    stream: u32,
) -> Result<Schema, TypeAnswer>
    requires { IsLed sites.now.unit.now graph.now leads.now }
    ensures { Finds (stream_attributes sites.now.unit.now graph.now stream) result }
{
    let Some(last) = leads.last(stream) else {
        return Err(mismatch(0));
    };
    let Some(origin) = origin_of(sites, graph, last) else {
        return Err(mismatch(0));
    };
    let shape = &origin.output.shape;
    match origin.body.named_stream(sites, shape) {
        Some((_, name)) => Err(unknown(alloc, shape.at, name)),
        None => own_attributes(alloc, sites, &origin.body, shape),
    }
}

/// The attributes of a stream, or its refusal.
fn found(
    alloc: Global,
    sites: &Sites,
    graph: &Graph,
    leads: &Leads,
    stream: u32,
) -> Result<Result<Schema, CheckRefusal>, NoMemory>
    requires { IsLed sites.now.unit.now graph.now leads.now }
    ensures { IfOk result (λ found. found ≡ stream_attributes sites.now.unit.now graph.now stream) }
{
    match attributes(alloc, sites, graph, leads, stream) {
        Ok(schema) => Ok(Ok(schema)),
        Err(TypeAnswer::Refused(refusal)) => Ok(Err(refusal)),
        Err(TypeAnswer::Memory) => Err(NoMemory),
    }
}

fn all_found(
    alloc: Global,
    sites: &Sites,
    graph: &Graph,
    leads: &Leads,
) -> Result<Vec<Result<Schema, CheckRefusal>>, NoMemory>
    requires { IsLed sites.now.unit.now graph.now leads.now }
    ensures { IfOk result (λ all. AreFound sites.now.unit.now graph.now all.items) }
{
    let count = narrow(graph.streams.len())?;
    let mut all = Vec::new(alloc);
    for stream in 0..count {
        all.push(found(alloc, sites, graph, leads, stream)?)?;
    }
    Ok(all)
}

impl StreamTable {
    /// Settles the attributes of all streams of a graph.
    ///
    /// `NoMemory` is also the answer for a type that is too large, as `shape_of` has it.
    pub fn new(alloc: Global, sites: &Sites, graph: &Graph) -> Result<StreamTable, NoMemory>
        ensures { IfOk result (λ t. IsTableOf sites.now.unit.now graph.now t) }
    {
        let leads = Leads::new(alloc, sites, graph)?;
        let found = all_found(alloc, sites, graph, &leads)?;
        Ok(StreamTable {
            back: leads.back,
            found,
        })
    }
}
