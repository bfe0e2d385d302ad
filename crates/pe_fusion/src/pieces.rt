//! The pieces into which operators are fused.
ghost use Rattle.std.specs.Prelude.{◌≡◌, ◌<◌, [], ℕ, Some, None, IfOk, OnOk, length, replicate, slice_get};
ghost use Rattle.std.specs.List.{Contains};
ghost use Rattle.std.specs.Option.{option_and_then};
ghost use Rattle.pe_fusion.specs.steps.Placing.{fused_maker, has_one_output, has_one_reader, leader, maker_of, place_of, producer_of, put_all, put_at, region_of, sole_stream};

use crate::readers::Readers;
use crate::regions::{OperatorRegion, OperatorRegions};
use spl_tree::{Graph, Op};
use spl_value::{Ids, Items, NoMemory};
use std::alloc::Global;

/// Operators that are fused, in the order of the chain, and their region, where they are one.
pub(crate) struct NumberedPiece {
    pub ids: Ids,
    pub region: Option<OperatorRegion>,
}

impl Drop for NumberedPiece {
    fn drop(self) {
        let NumberedPiece { ids: _, region: _ } = self;
    }
}

/// The pieces so far, and the place of each operator's piece, once it has one.
#[derive(Drop)]
pub(crate) struct Placement {
    pub pieces: Items<NumberedPiece>,
    pub places: Items<Option<usize>>,
}

// ---- leaders

fn region_of(regions: &OperatorRegions, op: u32) -> Option<OperatorRegion>
    ensures { result ≡ region_of regions.now op }
{
    match regions.get(op as usize) {
        Some(Some(region)) => Some(*region),
        _ => None,
    }
}

/// The stream of the one connection.
fn sole_stream(ins: &[Ids]) -> Option<u32>
    ensures { result ≡ sole_stream ins.now }
{
    match ins {
        [port] => match port.as_slice() {
            [stream] => Some(*stream),
            _ => None,
        },
        _ => None,
    }
}

/// Whether a stream has one connection.
fn has_one_reader(readers: &Readers, stream: u32) -> bool
    ensures { result ≡ has_one_reader readers.now stream }
{
    match readers.get(stream as usize) {
        Some(own) => own.len() == 1,
        None => false,
    }
}

/// Whether an operator has one output port.
fn has_one_output(graph: &Graph, op: u32) -> bool
    ensures { result ≡ has_one_output graph.now.ops op }
{
    match graph.ops.get(op as usize) {
        Some(own) => own.outs.len() == 1,
        None => false,
    }
}

/// The operator that makes a stream.
fn maker_of(graph: &Graph, stream: u32) -> Option<u32>
    ensures { result ≡ maker_of graph.now.streams stream }
{
    match graph.streams.get(stream as usize) {
        Some(made) => Some(made.maker),
        None => None,
    }
}

/// The operator that makes a stream, where one connection takes that, and the operator has one output port and
/// is outside regions.
fn fused_maker(
    graph: &Graph,
    regions: &OperatorRegions,
    readers: &Readers,
    stream: u32,
) -> Option<u32>
    ensures { result ≡ fused_maker graph.now regions.now readers.now stream }
{
    match maker_of(graph, stream) {
        Some(maker) if has_one_reader(readers, stream) && has_one_output(graph, maker) => {
            match region_of(regions, maker) {
                None => Some(maker),
                Some(_) => None,
            }
        }
        _ => None,
    }
}

/// The producer with which an operator outside regions is fused.
fn producer_of(graph: &Graph, regions: &OperatorRegions, readers: &Readers, op: &Op) -> Option<u32>
    ensures { result ≡ producer_of graph.now regions.now readers.now op.now.ins }
{
    match sole_stream(op.ins.as_slice()) {
        Some(stream) => fused_maker(graph, regions, readers, stream),
        None => None,
    }
}

/// The operator whose piece this one joins, once that has begun: the first one of its region, or else the
/// producer with which it is fused.
fn leader(graph: &Graph, regions: &OperatorRegions, readers: &Readers, op: u32) -> Option<u32>
    ensures { result ≡ leader graph.now regions.now readers.now op }
{
    match region_of(regions, op) {
        Some(region) => Some(region.first),
        None => match graph.ops.get(op as usize) {
            Some(own) => producer_of(graph, regions, readers, own),
            None => None,
        },
    }
}

// ---- placing

/// No operator has a place.
fn nowhere(alloc: Global, operators: usize) -> Result<Placement, NoMemory>
    ensures { IfOk result (λ state. state ≡ record { pieces = []; places = replicate operators None }) }
{
    let mut places = Items::with_capacity(alloc, operators)?;
    'places: for _ in 0..operators {
        places.push(None)?;
    }
    Ok(Placement {
        pieces: Items::new(alloc),
        places,
    })
}

/// The place of an operator's piece.
fn place_of(places: &Items<Option<usize>>, op: u32) -> Option<usize>
    ensures { result ≡ place_of places.now op }
{
    match places.get(op as usize) {
        Some(Some(at)) => Some(*at),
        _ => None,
    }
}

/// The place of the piece that an operator joins.
fn place_with(places: &Items<Option<usize>>, leader: Option<u32>) -> Option<usize>
    ensures { result ≡ option_and_then (place_of places.now) leader }
{
    match leader {
        Some(op) => place_of(places, op),
        None => None,
    }
}

/// Puts an operator at the end of the piece at a place, or into a new piece.
fn put(
    alloc: Global,
    state: &mut Placement,
    op: u32,
    region: Option<OperatorRegion>,
    place: Option<usize>,
) -> Result<(), NoMemory>
    requires op { op < length state.old.places }
    requires place { (i : ℕ) → place ≡ Some i → i < length state.old.pieces }
    ensures { OnOk result (state.new ≡ put_at place op region state.old) }
{
    match place {
        Some(at) => {
            state.pieces.item_mut(at).ids.push(op)?;
            state.places.set(op as usize, Some(at));
        }
        None => {
            let mut ids = Items::new(alloc);
            ids.push(op)?;
            state.places.set(op as usize, Some(state.pieces.len()));
            state.pieces.push(NumberedPiece { ids, region })?;
        }
    }
    Ok(())
}

/// The pieces into which operators are fused, in the order of their first operators.
pub(crate) fn pieces(
    alloc: Global,
    graph: &Graph,
    regions: &OperatorRegions,
    readers: &Readers,
) -> Result<Items<NumberedPiece>, NoMemory>
    requires { (n : ℕ) → Contains graph.now.topo n → n < length graph.now.ops }
    ensures { IfOk result (λ pieces. pieces ≡ (put_all graph.now regions.now readers.now
        (record { pieces = []; places = replicate (length graph.now.ops) None }) graph.now.topo).pieces) }
{
    let mut state = nowhere(alloc, graph.ops.len())?;
    for op in graph.topo.as_slice() {
        let place = place_with(&state.places, leader(graph, regions, readers, *op));
        put(alloc, &mut state, *op, region_of(regions, *op), place)?;
    }
    Ok(state.pieces)
}
