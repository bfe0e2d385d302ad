//! The arrival record of a run.
ghost use Rattle.std.specs.Prelude.{◌≡◌, ◌<◌, ◌^◌, IfOk, length};
ghost use Rattle.list_engine.specs.steps.Recording.{lists_from};

use spl_value::{Inputs, Items, NoMemory};
use std::alloc::Global;
use stream_model::{ArrivalList, ArrivalLists};

/// The lists of an arrival record, of the inputs of the events of each operator that has some recorded, by
/// its number.
pub(crate) fn arrival_lists(
    alloc: Global,
    recorded: Items<Option<Inputs>>,
) -> Result<ArrivalLists, NoMemory>
    requires few { length recorded < 2 ^ 32 }
    ensures { IfOk result (λ lists. lists ≡ lists_from 0 recorded) }
{
    let mut lists = Items::new(alloc);
    let mut op = 0u32;
    for own in recorded.into_vec() {
        if let Some(inputs) = own {
            lists.push(ArrivalList { op, inputs })?;
        }
        op += 1;
    }
    Ok(lists)
}
