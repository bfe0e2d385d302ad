//! Where streams are made, and which leads to which by the name that its shape is.
ghost use Rattle.std.specs.Prelude.{◌≡◌, ℕ, List, length, IfOk};
ghost use Rattle.std.specs.Option.{option_map, option_to_list};
ghost use Rattle.spl_tree.specs.declared.graph.Graph.{Graph};
ghost use Rattle.spl_tree.specs.declared.unit.Definition.{Definition};
ghost use Rattle.language_model.specs.StreamTypes.{origin_of, stream_leads};
ghost use Rattle.language_model.specs.Leading.{leads_back};
ghost use Rattle.stream_rules.specs.Circles.{TellsBack, flag_at};
ghost use Rattle.stream_rules.specs.steps.Origins.{EndsAt, EndsHere, IsLed, Steps, lead_at, origin_in, origin_seen};

use body_sites::{Body, Sites};
use spl_tree::{Expansion, Graph, OutputStream, Site};
use spl_value::NoMemory;
use std::alloc::Global;
use written_types::narrow;

/// Where a stream is made: a body, and the output there.
#[derive(Clone, Copy)]
pub(crate) struct Origin<'a> {
    pub(crate) body: Body<'a>,
    pub(crate) output: &'a OutputStream,
}

/// The output of an invocation in a body.
pub(crate) fn output_at<'s>(
    sites: &'s Sites,
    expansions: &'s [Expansion],
    site: Site,
    port: u32,
) -> Option<Origin<'s>>
    ensures { option_map origin_seen result ≡ origin_in sites.now.unit.now expansions.now site port }
{
    let body = sites.body_among(expansions, site.expansion)?;
    let invocation = body.composite.graph.get(site.invocation as usize)?;
    let output = invocation.outputs.get(port as usize)?;
    Some(Origin { body, output })
}

/// Where a stream is made.
pub(crate) fn origin_of<'s>(sites: &'s Sites, graph: &'s Graph, stream: u32) -> Option<Origin<'s>>
    ensures { option_map origin_seen result ≡ origin_of sites.now.unit.now graph.now stream }
{
    let stream = graph.streams.get(stream as usize)?;
    let op = graph.ops.get(stream.maker as usize)?;
    output_at(sites, graph.expansions.as_slice(), op.site, stream.port)
}

/// The stream whose name is the shape of a stream.
fn lead(sites: &Sites, graph: &Graph, stream: u32) -> Option<u32>
    ensures { option_to_list result ≡ stream_leads sites.now.unit.now graph.now stream }
{
    let origin = origin_of(sites, graph, stream)?;
    let shape = &origin.output.shape;
    let (place, _) = origin.body.named_stream(sites, shape)?;
    Some(place)
}

fn all_leads(alloc: Global, sites: &Sites, graph: &Graph) -> Result<Vec<Option<u32>>, NoMemory>
    ensures { IfOk result (λ next. Steps (length graph.now.streams) next.items (stream_leads sites.now.unit.now graph.now)) }
{
    let count = narrow(graph.streams.len())?;
    let mut next = Vec::new(alloc);
    for stream in 0..count {
        next.push(lead(sites, graph, stream))?;
    }
    Ok(next)
}

fn lead_at(next: &[Option<u32>], stream: u32) -> Option<u32>
    ensures { result ≡ lead_at next.now stream }
{
    match next.get(stream as usize) {
        Some(lead) => *lead,
        None => None,
    }
}

/// Whether a stream leads back to itself.
fn leads_back(next: &[Option<u32>], stream: u32) -> bool
    ensures { (f : ℕ → List ℕ) → Steps (length next.now) next.now f → result ≡ leads_back (length next.now) f stream }
{
    let mut at = stream;
    let mut left = next.len();
    'steps: while left > 0 {
        left -= 1;
        let Some(to) = lead_at(next, at) else {
            return false;
        };
        if to == stream {
            return true;
        }
        at = to;
    }
    false
}

fn flags(alloc: Global, next: &[Option<u32>]) -> Result<Vec<bool>, NoMemory>
    ensures { IfOk result (λ back. (f : ℕ → List ℕ) → Steps (length next.now) next.now f → TellsBack (length next.now) f back.items) }
{
    let count = narrow(next.len())?;
    let mut back = Vec::new(alloc);
    for stream in 0..count {
        back.push(leads_back(next, stream))?;
    }
    Ok(back)
}

/// Whether the flag at a place is set.
pub(crate) fn flag_at(flags: &[bool], place: u32) -> bool
    ensures { result ≡ flag_at flags.now place }
{
    match flags.get(place as usize) {
        Some(flag) => *flag,
        None => false,
    }
}

/// For each stream the one whose name is its shape, and whether it leads back to itself.
#[derive(Drop)]
pub(crate) struct Leads {
    next: Vec<Option<u32>>,
    pub(crate) back: Vec<bool>,
}

impl Leads {
    pub(crate) fn new(alloc: Global, sites: &Sites, graph: &Graph) -> Result<Leads, NoMemory>
        ensures { IfOk result (λ leads. IsLed sites.now.unit.now graph.now leads) }
    {
        let next = all_leads(alloc, sites, graph)?;
        let back = flags(alloc, next.as_slice())?;
        Ok(Leads { next, back })
    }

    /// The last stream in the row of those that a stream leads to, up to one that leads to a cycle.
    /// There is none where the row has no end.
    pub(crate) fn last(&self, stream: u32) -> Option<u32>
        ensures { (unit : List Definition) (g : Graph) → IsLed unit g self.now → EndsAt unit g self.now stream result }
    {
        let mut at = stream;
        let mut left = self.next.len();
        'steps: while left > 0 {
            left -= 1;
            let Some(to) = lead_at(self.next.as_slice(), at) else {
                return Some(at);
            };
            if flag_at(self.back.as_slice(), to) {
                return Some(at);
            }
            at = to;
        }
        self.last_step(at)
    }

    /// A stream that leads no further, or to a cycle.
    fn last_step(&self, at: u32) -> Option<u32>
        ensures { (unit : List Definition) (g : Graph) → IsLed unit g self.now → EndsHere unit g self.now at result }
    {
        let Some(to) = lead_at(self.next.as_slice(), at) else {
            return Some(at);
        };
        if flag_at(self.back.as_slice(), to) {
            Some(at)
        } else {
            None
        }
    }
}
