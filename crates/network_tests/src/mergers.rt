//! What mergers give for packets in many orders.
ghost use Rattle.channel_heads.specs.Held.{wants, width_of};

use crate::scripts::{Merges, told};
use order_merger::{NumberMerger, TurnMerger};
use pulse_rule::PulseMerger;
use spl_value::{Item, Packet};
use std::alloc::{AllocError, Global};
use test_texts::rows::{Answers, Untrue, expect};
use test_texts::words::{cut, number};

impl Merges for TurnMerger {
    ghost width = { λ m. width_of m.held };

    ghost is_wanting = { λ m. wants m.held };

    fn does_want(&self, channel: u32) -> bool {
        self.wants(channel)
    }

    fn take_in(&mut self, channel: u32, packet: Packet) {
        self.take(channel, packet);
    }

    fn give(&mut self) -> Option<Item> {
        self.emit()
    }

    fn was_cut(&self) -> bool {
        self.is_cut()
    }
}

impl Merges for NumberMerger {
    ghost width = { λ m. width_of m.held };

    ghost is_wanting = { λ m. wants m.held };

    fn does_want(&self, channel: u32) -> bool {
        self.wants(channel)
    }

    fn take_in(&mut self, channel: u32, packet: Packet) {
        self.take(channel, packet);
    }

    fn give(&mut self) -> Option<Item> {
        self.emit()
    }

    fn was_cut(&self) -> bool {
        self.is_cut()
    }
}

impl Merges for PulseMerger {
    ghost width = { λ m. width_of m };

    ghost is_wanting = { λ m. wants m };

    fn does_want(&self, channel: u32) -> bool {
        self.wants(channel)
    }

    fn take_in(&mut self, channel: u32, packet: Packet) {
        self.take(channel, packet);
    }

    fn give(&mut self) -> Option<Item> {
        self.emit()
    }

    fn was_cut(&self) -> bool {
        self.is_cut()
    }
}

// A kind, a width and a script: what that merger tells.
struct Merged;

impl Answers for Merged {
    fn answer(&self, alloc: Global, text: &str) -> Result<String, AllocError> {
        let (kind, rest) = cut(text);
        let (width, script) = cut(rest);
        let width = number(width).clamp(1, 16);
        match kind {
            "turns" => told(alloc, TurnMerger::new(alloc, width), width, script),
            "numbers" => told(alloc, NumberMerger::new(alloc, width), width, script),
            _ => told(alloc, PulseMerger::new(alloc, width), width, script),
        }
    }
}

const ROWS: &str = r#"
# By turns each channel gives one item, in its turn
turns 2 1:1b ? 0:0a ? ? ? => -ab-
turns 1 0:0a ? 0:1b ? 0:2. ? ? => ab.-
turns 3 2:2c 1:1b ? 0:0a ? ? ? ? 0:3d ? => -abc-d
turns 16 15:15b ? 0:0a ? ? => -a-

# By numbers the next number is given, wherever it stands
numbers 2 1:1b ? 0:0a ? ? ? => -ab-
numbers 2 1:0a ? 1:1b ? 0:2c ? 0:3d ? => abcd
numbers 1 0:0a ? 0:1. ? => a.
numbers 16 15:1b 7:2c ? 3:0a ? ? ? ? => -abc-

# By pulses an item waits until no channel can give a smaller number
pulses 2 0:0a ? 0:1b ? 1:p1 ? 0:2c ? 1:close ? => a-b-c
pulses 2 0:16a ? 1:p16 ? 0:17b ? 1:p32 ? => -a-b
pulses 2 0:p16 1:16a ? => a
pulses 2 0:p16 1:17a ? => -
pulses 1 0:0a ? 0:0b ? 0:7. ? => ab.
pulses 16 0:1a ? 1:close 2:close 3:close 4:close 5:close 6:close 7:close 8:close 9:close 10:close 11:close 12:close 13:close 14:close ? 15:close ? => --a

# Several items of one number come in their channel's order
pulses 2 0:0a ? 1:1d ? 0:0b ? 0:0c ? 0:p2 ? 1:1e ? 1:1f ? => a-bcdef

# What has stopped a channel is no pulse
pulses 2 0:1a 1:cut ? => -

# A fault of a larger number waits for the smaller ones, and the first by number ends the merge
numbers 2 1:1! ? 0:0a ? ? 0:2b ? => -a!-
pulses 3 2:2! ? 1:1! ? 0:0a ? ? ? => --a--
pulses 3 2:2! ? 1:1! ? 0:0a ? 0:p2 ? ? 1? 2? => --a!-++

# What comes after a final marker is taken and dropped
turns 2 0:0. ? 1:1b ? 1? 1:3c ? => .-+-
numbers 2 1:1b 0:0. ? ? 1? 1:2c ? cut? => .-+--
pulses 2 1:1b 0:0. ? ? 1? 1:2c 1:close 1? 0:close 0? ? cut? => .-+----

# A merger that was cut gives nothing more, and drops its heads
turns 2 0:0a 1:cut ? 0? 1? cut? => -+-+
numbers 2 0:0a 1:cut ? 0? 1? 0:1b ? cut? => -+--+
pulses 2 1:1b 0:0a 0? ? 0:cut ? 1? cut? => -a-++
numbers 2 0:0a ? 1:1. ? 0:cut cut? => a.-

# A channel wants a packet while it holds no head and isn't closed
pulses 2 0? 0:1a 0? 1? 1:p1 1? ? 0? 0:close 0? => +-++a+-
numbers 2 0:0a 0:1b ? => unwanteda
"#;

#[test]
fn mergers_give_items_in_their_order(rt: HostRuntime) -> Result<(), Untrue> {
    expect(rt.alloc(), &Merged, &[ROWS])
}
