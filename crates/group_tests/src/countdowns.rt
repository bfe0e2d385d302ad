//! Nodes that are done after so many turns, at some of which they are idle.
ghost use Rattle.std.specs.Prelude.{◌≡◌, ◌≤◌};

use feed_pour::{AllStart, NotThese, OpenGate, Starter};
use group_drive::{Links, Tells, Turn, Turns, room_for, run};
use spl_value::Items;
use std::alloc::{AllocError, Global};
use std::sync::Wait;
use std::thread::Threads;

#[derive(Drop)]
struct Countdown {
    number: u32,
    left: u32,
}

impl Turns for Countdown {
    ghost number = { λ n. n.number };

    ghost runs = { λ n part links. n.left ≤ n.left };

    ghost ended = { λ n part links. n.left ≡ 0 };

    fn number(&self) -> u32 {
        self.number
    }

    fn turn<W: Wait, T: Tells>(&mut self, _rt: &W, _links: &Links, gate: &T) -> Turn {
        if self.left == 0 {
            return Turn::Done;
        }
        gate.tell_put(self.number, u64::from(self.left));
        self.left -= 1;
        if self.left % 3 == 0 {
            Turn::Idle
        } else {
            Turn::Moved
        }
    }
}

// How many nodes come back, which, as the sum of their powers of two, and how many turns are left of all.
fn driven<R: Threads + Wait + Sync, S: Starter>(
    rt: &R,
    alloc: Global,
    nodes: u32,
    workers: u32,
    starter: &mut S,
) -> Option<(usize, u64, u32)>
    requires { (1 ≤ workers) × (workers ≤ 8) }
{
    let mut all = Vec::new(alloc);
    for number in 0..nodes {
        let left = (number % 7) * 100;
        all.push(Countdown { number, left }).ok()?;
    }
    if all.len() > 64 {
        return None;
    }
    let room = match room_for(alloc, 8, all.len()) {
        Ok(room) => room,
        Err(_) => return None,
    };
    let links = Vec::new(alloc);
    let back = run(rt, &links, all, room, workers, starter, &OpenGate);
    let mut which = 0u64;
    let mut left = 0u32;
    for node in back.as_slice() {
        which = which.wrapping_add(1u64.wrapping_shl(node.number));
        left = left.wrapping_add(node.left);
    }
    Some((back.len(), which, left))
}

#[test]
fn each_node_comes_back_once_and_done(rt: HostRuntime) {
    for (nodes, workers) in [(13, 4), (13, 1), (3, 8), (1, 1), (0, 2), (60, 8)] {
        let wanted = Some((nodes as usize, (1u64 << nodes) - 1, 0));
        assert!(rt; driven(&rt, rt.alloc(), nodes, workers, &mut AllStart) == wanted);
    }
}

#[test]
fn groups_without_a_worker_are_driven_by_the_caller(rt: HostRuntime) -> Result<(), AllocError> {
    for refused in [0, 2, 7] {
        let groups = Items::from_vec(Vec::from_array(rt.alloc(), [refused, 1])?);
        let seen = driven(&rt, rt.alloc(), 20, 3, &mut NotThese { groups });
        assert!(rt; seen == Some((20, (1 << 20) - 1, 0)));
    }
    Ok(())
}
