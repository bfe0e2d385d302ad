//! Which operators stand in regions that run in replicas.
ghost use Rattle.std.specs.Prelude.{◌≡◌, ◌<◌, ◌^◌, ℕ, None, Some, IfOk, length, replicate, slice_get};
ghost use Rattle.std.specs.List.{Contains};
ghost use Rattle.stream_model.specs.declared.plan.Region.{Region};
ghost use Rattle.pe_fusion.specs.steps.Regions.{entered, enter_all, set_all};

use spl_value::{Ids, Items, NoMemory};
use std::alloc::Global;
use stream_model::{Plan, Region, width_of};

/// The region of an operator: its place in the plan, its first operator and the number of its channels.
#[derive(Clone, Copy)]
pub(crate) struct OperatorRegion {
    pub region: u32,
    pub first: u32,
    pub width: u32,
}

/// The regions of operators, by their numbers; none of an operator outside regions.
pub(crate) type OperatorRegions = Items<Option<OperatorRegion>>;

/// So many operators outside regions.
fn outside(alloc: Global, operators: usize) -> Result<OperatorRegions, NoMemory>
    ensures { IfOk result (λ regions. regions ≡ replicate operators None) }
{
    let mut regions = Items::with_capacity(alloc, operators)?;
    'operators: for _ in 0..operators {
        regions.push(None)?;
    }
    Ok(regions)
}

/// Sets the region of these operators.
fn set_all(regions: &mut OperatorRegions, ops: &Ids, region: OperatorRegion)
    requires { (n : ℕ) → Contains ops.now n → n < length regions.old }
    ensures { regions.new ≡ set_all regions.old ops.now region }
{
    for op in ops.as_slice() {
        regions.set(*op as usize, Some(region));
    }
}

/// Sets the region of the operators of a region of the plan, where it runs in replicas.
fn enter(regions: &mut OperatorRegions, number: u32, region: &Region, width: u32)
    requires { (n : ℕ) → Contains region.now.ops n → n < length regions.old }
    ensures { regions.new ≡ entered width number region.now regions.old }
{
    let channels = width_of(region, width);
    match region.ops.get(0) {
        Some(first) if channels > 1 => {
            let own = OperatorRegion {
                region: number,
                first: *first,
                width: channels,
            };
            set_all(regions, &region.ops, own);
        }
        _ => {}
    }
}

/// The regions of operators, as far as they run in replicas at this width.
pub(crate) fn operator_regions(
    alloc: Global,
    operators: usize,
    plan: &Plan,
    width: u32,
) -> Result<OperatorRegions, NoMemory>
    requires few { length plan.now < 2 ^ 32 }
    requires within { (i n : ℕ) (r : Region) → slice_get plan.now i ≡ Some r → Contains r.ops n → n < operators }
    ensures { IfOk result (λ regions. regions ≡ enter_all width 0 plan.now (replicate operators None)) }
{
    let mut regions = outside(alloc, operators)?;
    let mut number = 0;
    for region in plan.as_slice() {
        enter(&mut regions, number, region, width);
        number += 1;
    }
    Ok(regions)
}
