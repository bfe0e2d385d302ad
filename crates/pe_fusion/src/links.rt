//! The links between elements.
ghost use Rattle.std.specs.Prelude.{◌≡◌, ◌<◌, ◌+◌, ◌^◌, ◌++◌, ℕ, Some, IfOk, OnOk, length, slice_get};
ghost use Rattle.std.specs.List.{flat_map};
ghost use Rattle.pe_fusion.specs.FusedNets.{channel_links, merger_links, outer_links};
ghost use Rattle.pe_fusion.specs.declared.pieces.NumberedPiece.{NumberedPiece};
ghost use Rattle.pe_fusion.specs.steps.Building.{all_links, last_outs, outs_links, piece_links, start_at};
ghost use Rattle.pe_fusion.specs.steps.Reading.{read_by};
ghost use Rattle.pe_fusion.specs.steps.Starting.{elements_by_region, sizes};

use crate::pieces::NumberedPiece;
use crate::readers::Readers;
use crate::regions::OperatorRegion;
use crate::starts::size_of;
use spl_tree::{Graph, Op};
use spl_value::{Ids, Items, NoMemory};
use std::alloc::Global;
use stream_model::{LinkEnds, ShapeLink};

/// Adds the links from a splitter to its replicas, which stand behind it.
fn add_channels(links: &mut LinkEnds, splitter: u32, width: u32) -> Result<(), NoMemory>
    requires { splitter + width + 1 < 2 ^ 32 }
    ensures { OnOk result (links.new ≡ links.old ++ channel_links splitter 0 width) }
{
    for channel in 0..width {
        links.push(ShapeLink {
            from: splitter,
            output: channel,
            to: splitter + 1 + channel,
            input: 0,
        })?;
    }
    Ok(())
}

/// Adds the links from replicas, which begin with this element, to the merger behind them.
fn add_merges(links: &mut LinkEnds, first: u32, width: u32) -> Result<(), NoMemory>
    requires { first + width < 2 ^ 32 }
    ensures { OnOk result (links.new ≡ links.old ++ merger_links first 0 width) }
{
    for channel in 0..width {
        links.push(ShapeLink {
            from: first + channel,
            output: 0,
            to: first + width,
            input: channel,
        })?;
    }
    Ok(())
}

/// The element that reads for an operator with which a piece begins.
fn start_at(starts: &Ids, op: u32) -> u32
    ensures { result ≡ start_at starts.now op }
{
    match starts.get(op as usize) {
        Some(start) => *start,
        None => 0,
    }
}

/// Adds the links from an element, whose outputs from this one on lead to these operators and inputs. Gives the
/// output behind them.
fn add_readers(
    links: &mut LinkEnds,
    starts: &Ids,
    from: u32,
    first: u32,
    readers: &[(u32, u32)],
) -> Result<u32, NoMemory>
    requires { first + length readers.now < 2 ^ 32 }
    ensures links { OnOk result (links.new ≡ links.old ++ outer_links (start_at starts.now) from first readers.now) }
    ensures next { IfOk result (λ next. next ≡ first + length readers.now) }
{
    let mut output = first;
    for reader in readers {
        let (op, input) = *reader;
        links.push(ShapeLink {
            from,
            output,
            to: start_at(starts, op),
            input,
        })?;
        output += 1;
    }
    Ok(output)
}

/// The connections of a stream.
pub(crate) fn read_by<'r>(readers: &'r Readers, stream: u32) -> &'r [(u32, u32)]
    ensures { result.now ≡ read_by readers.now stream }
{
    match readers.get(stream as usize) {
        Some(own) => own.as_slice(),
        None => &[],
    }
}

/// Adds the links from an element whose outputs carry these streams, one after another.
fn add_outs(
    links: &mut LinkEnds,
    starts: &Ids,
    readers: &Readers,
    from: u32,
    outs: &[u32],
) -> Result<(), NoMemory>
    requires { length (flat_map (read_by readers.now) outs.now) < 2 ^ 32 }
    ensures { OnOk result (links.new ≡ links.old ++ outs_links starts.now readers.now from outs.now) }
{
    let mut output = 0;
    for stream in outs {
        output = add_readers(links, starts, from, output, read_by(readers, *stream))?;
    }
    Ok(())
}

/// The streams that the last of these operators makes.
pub(crate) fn last_outs<'o>(ops: &'o Items<Op>, ids: &Ids) -> &'o [u32]
    ensures { result.now ≡ last_outs ops.now ids.now }
{
    match ids.as_slice().last() {
        Some(last) => match ops.get(*last as usize) {
            Some(op) => op.outs.as_slice(),
            None => &[],
        },
        None => &[],
    }
}

/// Adds the links from the elements of a piece, which begin with `start`.
fn add_piece(
    links: &mut LinkEnds,
    starts: &Ids,
    readers: &Readers,
    start: u32,
    region: Option<OperatorRegion>,
    outs: &[u32],
) -> Result<(), NoMemory>
    requires few { start + elements_by_region region < 2 ^ 32 }
    requires outs { length (flat_map (read_by readers.now) outs.now) < 2 ^ 32 }
    ensures { OnOk result (links.new ≡ links.old ++ piece_links starts.now readers.now start region outs.now) }
{
    match region {
        None => add_outs(links, starts, readers, start, outs),
        Some(region) => {
            add_channels(links, start, region.width)?;
            add_merges(links, start + 1, region.width)?;
            add_outs(links, starts, readers, start + region.width + 1, outs)
        }
    }
}

/// The links of pieces, by sender and then by output.
pub(crate) fn links(
    alloc: Global,
    graph: &Graph,
    readers: &Readers,
    starts: &Ids,
    pieces: &[NumberedPiece],
) -> Result<LinkEnds, NoMemory>
    requires few { sizes pieces.now < 2 ^ 32 }
    requires outs { (i : ℕ) (p : NumberedPiece) → slice_get pieces.now i ≡ Some p
        → length (flat_map (read_by readers.now) (last_outs graph.now.ops p.ids)) < 2 ^ 32 }
    ensures { IfOk result (λ links. links ≡ all_links graph.now.ops starts.now readers.now 0 pieces.now) }
{
    let mut links = Items::new(alloc);
    let mut start = 0;
    for piece in pieces {
        let outs = last_outs(&graph.ops, &piece.ids);
        add_piece(&mut links, starts, readers, start, piece.region, outs)?;
        start += size_of(piece);
    }
    Ok(links)
}
