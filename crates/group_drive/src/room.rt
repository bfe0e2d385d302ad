//! The room of a run.
ghost use Rattle.std.specs.Prelude.{◌≡◌, ◌<◌, ◌≤◌, ◌^◌, [], vec_len, vec_capacity, IfOk};
ghost use Rattle.group_drive.specs.Groups.{AreEmpty};
ghost use Rattle.group_drive.specs.Rooms.{HasGroups, HasRoom};

use crate::answer::{Answer, Back};
use crate::turns::Turns;
use spl_value::NoMemory;
use std::alloc::Global;
use std::sync::atomic::AtomicBool;
use std::thread::PromisedHandle;

/// The lists of a run, which are made before a thread starts.
#[derive(Drop)]
pub struct Room<N: Turns> {
    pub(crate) flags: Vec<AtomicBool>,
    pub(crate) handles: Vec<PromisedHandle<Answer<N>, Back<N>>>,
    pub(crate) groups: Vec<Vec<N>>,
    pub(crate) left: Vec<N>,
    pub(crate) all: Vec<N>,
}

fn flags_for(alloc: Global, count: usize) -> Result<Vec<AtomicBool>, NoMemory>
    ensures { IfOk result (λ v. vec_len v ≡ count) }
{
    let mut flags = Vec::new(alloc);
    for _ in 0..count {
        flags.push(AtomicBool::new(false))?;
    }
    Ok(flags)
}

// So many empty groups. Each has room for its nodes, whatever number of groups is used.
fn groups_for<N: Turns>(alloc: Global, count: usize, nodes: usize) -> Result<Vec<Vec<N>>, NoMemory>
    requires { nodes < 2 ^ 32 }
    ensures len { IfOk result (λ v. vec_len v ≡ count) }
    ensures none { IfOk result (λ v. AreEmpty v.items) }
{
    let mut groups = Vec::new(alloc);
    'groups: for i in 0..count {
        groups.push(Vec::with_capacity(alloc, (nodes / (i + 1)).min(nodes) + 1)?)?;
    }
    Ok(groups)
}

/// The room for a run of so many nodes in at most so many groups.
pub fn room_for<N: Turns>(alloc: Global, groups: usize, nodes: usize) -> Result<Room<N>, NoMemory>
    requires { nodes < 2 ^ 32 }
    ensures groups { IfOk result (λ r. HasGroups r groups) }
    ensures nodes { IfOk result (λ r. HasRoom r nodes) }
{
    let flags = flags_for(alloc, groups)?;
    let handles = Vec::with_capacity(alloc, groups)?;
    let left = Vec::with_capacity(alloc, nodes)?;
    let all = Vec::with_capacity(alloc, nodes)?;
    let groups = groups_for(alloc, groups, nodes)?;
    Ok(Room {
        flags,
        handles,
        groups,
        left,
        all,
    })
}
