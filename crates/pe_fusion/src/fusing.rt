//! Fusion of a graph.
ghost use Rattle.std.specs.Prelude.{◌≡◌, ◌<◌, ◌≤◌, ℕ, IfOk, length, Err};
ghost use Rattle.stream_model.specs.CheckedMeaning.{graph_of};
ghost use Rattle.stream_model.specs.Meaning.{Graph};
ghost use Rattle.stream_model.specs.Regions.{IsPlan};
ghost use Rattle.pe_fusion.specs.declared.answer.FuseAnswer.TheVariants as A;
ghost use Rattle.pe_fusion.specs.Shapes.{shape_of};

use crate::answer::FuseAnswer;
use crate::elements::elements;
use crate::links::links;
use crate::pieces::pieces;
use crate::readers::readers;
use crate::regions::operator_regions;
use crate::starts::{starts, total_size};
use language_model::Checked;
use std::alloc::Global;
use stream_model::{Plan, Shape};

/// The elements into which the operators of a graph are fused at a width, by its plan, and the links between
/// them. `TooWide` says how many elements there would be, where these are more than 2,048. The time that it
/// takes grows with the elements and the connections.
pub fn fuse(alloc: Global, checked: &Checked, plan: &Plan, width: u32) -> Result<Shape, FuseAnswer>
    requires plan { (g : Graph) → graph_of checked.now ≡ g → IsPlan g plan.now }
    requires width { width ≤ 16 }
    ensures shape { IfOk result (λ shape. (g : Graph) → graph_of checked.now ≡ g → shape ≡ shape_of g plan.now width) }
    ensures fits { IfOk result (λ shape. length shape.elements ≤ 2048) }
    ensures too_wide { (n : ℕ) (g : Graph) → result ≡ Err (A.TooWide n) → graph_of checked.now ≡ g
        → (n ≡ length (shape_of g plan.now width).elements) × (2048 < n) }
{
    let readers = readers(alloc, checked)?;
    let regions = operator_regions(alloc, checked.graph.ops.len(), plan, width)?;
    let pieces = pieces(alloc, &checked.graph, &regions, &readers)?;
    let size = total_size(pieces.as_slice());
    if size > 2048 {
        return Err(FuseAnswer::TooWide(size));
    }
    let starts = starts(alloc, checked.graph.ops.len(), pieces.as_slice())?;
    Ok(Shape {
        elements: elements(alloc, pieces.as_slice())?,
        links: links(alloc, &checked.graph, &readers, &starts, pieces.as_slice())?,
    })
}
