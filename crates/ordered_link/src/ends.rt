//! The link, its two ends, and what is left of them.
ghost use Rattle.std.specs.Prelude.{◌≡◌, ◌≤◌, [], length, true, false};
ghost use Rattle.crossbeam_queue.specs.Passes.{view, ruled_capacity};
ghost use Rattle.ordered_link.specs.Rule.{log};

use crate::rule::{Line, LinkPass};
use spl_value::{Items, Packet};

pub mod calls;

/// A bounded queue of packets. One pass sends and one takes.
pub struct Link {
    queue: Line,
    capacity: u32,
    wear: u64,
    ghost sized: { ruled_capacity queue ≡ capacity },
}

impl Drop for Link {
    fn drop(self) {
        let Link {
            queue: _,
            capacity: _,
            wear: _,
        } = self;
    }
}

/// The sender's end of a link. Contracts see by it what its calls have sent.
#[derive(Drop)]
pub struct SendPass {
    pass: LinkPass,
    count: u64,
    capacity: u32,
    wear: u64,
    ghost knows: { view pass ≡ log true false capacity wear (view pass).sent [] },
    ghost counted: { count ≡ length (view pass).sent },
    ghost within: { count ≤ wear },
}

/// The taker's end of a link. Contracts see by it what its calls have taken.
#[derive(Drop)]
pub struct TakePass {
    pass: LinkPass,
    count: u64,
    capacity: u32,
    wear: u64,
    ghost knows: { view pass ≡ log false true capacity wear [] (view pass).taken },
    ghost counted: { count ≡ length (view pass).taken },
    ghost within: { count ≤ wear },
}

/// Why a packet wasn't put. It is handed back.
#[derive(Drop)]
pub enum Put {
    /// The link held as many packets as it may.
    Full(Packet),
    /// The link has carried as many packets as it may. The last one is kept for `Close` or `Cut`.
    Worn(Packet),
}

/// What is left of a link whose ends have come together: how many packets were sent and how many taken,
/// and the capacity. Contracts see both lists by it, and no call but `settle` makes one.
#[derive(Drop)]
pub struct Settled {
    pub sent: u64,
    pub taken: u64,
    pub capacity: u32,
    pass: LinkPass,
    ghost known: { (view pass).sends ≡ true },
    ghost sent_counted: { sent ≡ length (view pass).sent },
    ghost taken_counted: { taken ≡ length (view pass).taken },
}

pub type SettledLinks = Items<Settled>;
