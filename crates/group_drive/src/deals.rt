//! Nodes dealt into groups.
ghost use Rattle.std.specs.Prelude.{◌≡◌, ◌<◌, ◌≤◌, ◌+◌, ◌++◌, ◌^◌, ℕ, List, [], vec_len, vec_capacity};
ghost use Rattle.ordered_link.specs.declared.ends.Link.{Link};
ghost use Rattle.group_drive.specs.Groups.{AllRun, AreEmpty, GroupsRun, Parts, weigh, weigh_all};

use crate::turns::Turns;

/// Puts the nodes behind the others, where there is room.
pub(crate) fn add<N: Drop>(mut all: Vec<N>, mut nodes: Vec<N>) -> Vec<N>
    requires { vec_len all + vec_len nodes ≤ vec_capacity all }
    ensures items { result.items ≡ all.items ++ nodes.items }
    ensures room { vec_capacity all ≤ vec_capacity result }
{
    let Ok(()) = all.append(&mut nodes) else {
        unreachable!();
    };
    all
}

// Puts the node into the group, or behind the others where there is no room in it.
fn put_in<N: Turns>(
    mut groups: Vec<Vec<N>>,
    mut left: Vec<N>,
    at: usize,
    node: N,
) -> (Vec<Vec<N>>, Vec<N>)
    requires at { at < vec_len groups }
    requires room { vec_len left < vec_capacity left }
    ensures len { (vec_len result.0 ≡ vec_len groups) × (vec_capacity result.1 ≡ vec_capacity left) × (vec_len result.1 ≤ vec_len left + 1) }
    ensures kept { (h : ℕ → ℕ) → weigh_all N.number h result.0.items + weigh N.number h result.1.items
        ≡ weigh_all N.number h groups.items + weigh N.number h left.items + h (N.number node) }
    ensures runs { (parts : Parts) (links : List Link) → N.runs node (parts (N.number node)) links
        → GroupsRun N.number N.runs parts links groups.items × AllRun N.number N.runs parts links left.items
        → GroupsRun N.number N.runs parts links result.0.items × AllRun N.number N.runs parts links result.1.items }
{
    let group = &mut groups[at];
    if group.reserve(1).is_err() {
        left.push_reserved(node);
    } else {
        group.push_reserved(node);
    }
    (groups, left)
}

/// Deals the nodes into the groups by their numbers. One for which there is no room goes to those that are left.
pub(crate) fn deal<N: Turns>(
    mut nodes: Vec<N>,
    mut groups: Vec<Vec<N>>,
    mut left: Vec<N>,
) -> (Vec<Vec<N>>, Vec<N>)
    requires groups { (0 < vec_len groups) × (vec_len groups < 2 ^ 32) }
    requires none { AreEmpty groups.items × (left.items ≡ []) }
    requires room { vec_len nodes ≤ vec_capacity left }
    ensures len { (vec_len result.0 ≡ vec_len groups) × (vec_capacity result.1 ≡ vec_capacity left) }
    ensures kept { (h : ℕ → ℕ) → weigh_all N.number h result.0.items + weigh N.number h result.1.items ≡ weigh N.number h nodes.items }
    ensures runs { (parts : Parts) (links : List Link) → AllRun N.number N.runs parts links nodes.items
        → GroupsRun N.number N.runs parts links result.0.items × AllRun N.number N.runs parts links result.1.items }
{
    let workers = groups.len() as u32;
    'nodes: while let Some(node) = nodes.pop() {
        let at = (node.number() % workers) as usize;
        (groups, left) = put_in(groups, left, at, node);
    }
    (groups, left)
}
