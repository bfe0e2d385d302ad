//! Which elements each worker runs.
ghost use Rattle.std.specs.Prelude.{◌≡◌, ◌<◌, ◌^◌, [], IfOk, length, replicate};
ghost use Rattle.pe_fusion.specs.Shapes.{groups_of};

use spl_value::{Ids, Items, NoMemory};
use std::alloc::Global;
use stream_model::Shape;

/// The elements that each worker runs, by their numbers in ascending order.
pub type Groups = Items<Ids>;

/// So many groups without elements.
fn empty(alloc: Global, workers: u32) -> Result<Groups, NoMemory>
    ensures { IfOk result (λ groups. groups ≡ replicate workers []) }
{
    let mut groups = Items::with_capacity(alloc, workers as usize)?;
    'workers: for _ in 0..workers {
        groups.push(Items::new(alloc))?;
    }
    Ok(groups)
}

/// The groups of elements, one for each worker: element e belongs to group e modulo the number of workers.
pub fn groups(alloc: Global, shape: &Shape, workers: u32) -> Result<Groups, NoMemory>
    requires some { 0 < workers }
    requires few { length shape.now.elements < 2 ^ 32 }
    ensures { IfOk result (λ groups. groups ≡ groups_of (length shape.now.elements) workers) }
{
    let mut groups = empty(alloc, workers)?;
    for element in 0..shape.elements.len() as u32 {
        let worker = element % workers;
        groups.item_mut(worker as usize).push(element)?;
    }
    Ok(groups)
}
