//! The elements of pieces.
ghost use Rattle.std.specs.Prelude.{◌≡◌, ◌∷◌, [], ◌++◌, Some, IfOk, OnOk};
ghost use Rattle.pe_fusion.specs.Shapes.{element, replica_elements};
ghost use Rattle.pe_fusion.specs.steps.Building.{all_elements, piece_elements};

use crate::pieces::NumberedPiece;
use crate::regions::OperatorRegion;
use spl_value::{Ids, Items, NoMemory};
use std::alloc::Global;
use stream_model::{Elements, Role, ShapeElement};

fn add(
    alloc: Global,
    elements: &mut Elements,
    role: Role,
    region: Option<u32>,
    ids: &Ids,
) -> Result<(), NoMemory>
    ensures { OnOk result (elements.new ≡ elements.old ++ element role region ids.now ∷ []) }
{
    let ids = Items::from_slice(alloc, ids.as_slice())?;
    elements.push(ShapeElement { role, region, ids })?;
    Ok(())
}

/// Adds the replicas of a region.
fn add_replicas(
    alloc: Global,
    elements: &mut Elements,
    region: OperatorRegion,
    ids: &Ids,
) -> Result<(), NoMemory>
    ensures { OnOk result (elements.new ≡ elements.old ++ replica_elements (Some region.region) ids.now 0 region.width) }
{
    for channel in 0..region.width {
        add(
            alloc,
            elements,
            Role::Replica(channel),
            Some(region.region),
            ids,
        )?;
    }
    Ok(())
}

/// Adds the elements of a piece: a chain, or the splitter, the replicas by channel and the merger of a region.
fn add_piece(alloc: Global, elements: &mut Elements, piece: &NumberedPiece) -> Result<(), NoMemory>
    ensures { OnOk result (elements.new ≡ elements.old ++ piece_elements piece.now.region piece.now.ids) }
{
    match piece.region {
        None => add(alloc, elements, Role::Chain, None, &piece.ids),
        Some(region) => {
            add(
                alloc,
                elements,
                Role::Splitter,
                Some(region.region),
                &piece.ids,
            )?;
            add_replicas(alloc, elements, region, &piece.ids)?;
            add(
                alloc,
                elements,
                Role::Merger,
                Some(region.region),
                &piece.ids,
            )
        }
    }
}

/// The elements of pieces.
pub(crate) fn elements(alloc: Global, pieces: &[NumberedPiece]) -> Result<Elements, NoMemory>
    ensures { IfOk result (λ elements. elements ≡ all_elements pieces.now) }
{
    let mut elements = Items::new(alloc);
    for piece in pieces {
        add_piece(alloc, &mut elements, piece)?;
    }
    Ok(elements)
}
