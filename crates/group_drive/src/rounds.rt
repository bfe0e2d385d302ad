//! One worker's loop over its nodes.
ghost use Rattle.std.specs.Prelude.{◌≡◌, map};
ghost use Rattle.group_drive.specs.Groups.{AllRun, Parts};

use crate::turns::{Links, Turn, Turns};
use crossbeam_utils::Backoff;
use feed_pour::Gate;
use std::sync::Wait;

/// Drives the nodes, turn about, until each is done. It pauses after a round in which each was idle or done, for longer
/// after each such round, and from a limit on yields the processor.
pub fn drive<W: Wait, G: Gate, N: Turns>(
    rt: &W,
    links: &Links,
    mut nodes: Vec<N>,
    gate: &G,
) -> Vec<N>
    requires runs { (parts : Parts) × AllRun N.number N.runs parts links.now.items nodes.items }
    ensures numbers { map N.number result.items ≡ map N.number nodes.items }
    ensures runs { (parts : Parts) → AllRun N.number N.runs parts links.now.items nodes.items
        → AllRun N.number N.runs parts links.now.items result.items }
    ensures done { (parts : Parts) → AllRun N.number N.runs parts links.now.items nodes.items
        → AllRun N.number N.ended parts links.now.items result.items }
{
    let backoff = Backoff::new();
    'rounds: for _ in rt.forever() {
        let mut moved = false;
        let mut all_done = true;
        'nodes: for i in 0..nodes.len() {
            let node = &mut nodes[i];
            match node.turn(rt, links, gate) {
                Turn::Moved => {
                    moved = true;
                    all_done = false;
                }
                Turn::Idle => all_done = false,
                Turn::Done => (),
            }
        }
        if all_done {
            break;
        }
        if moved {
            backoff.reset();
        } else {
            backoff.snooze();
        }
    }
    nodes
}
