//! A million items through each merger: they come on the channels in turn, and as many are asked for as come.
ghost use Rattle.std.specs.Prelude.{◌≡◌, ◌≤◌, IfOk};

use crate::scripts::Merges;
use order_merger::{NumberMerger, TurnMerger};
use pulse_rule::PulseMerger;
use spl_value::{Item, NoMemory, Packet};

// How many items a merger gives of so many.
fn given<M: Merges>(merger: Result<M, NoMemory>, width: u32, count: u64) -> Option<u64>
    requires width { 1 ≤ width }
    requires merger { IfOk merger (λ m. M.width m ≡ width) }
{
    let mut merger = merger.ok()?;
    let mut given = 0u64;
    for number in 0..count {
        let channel = (number % u64::from(width)) as u32;
        if merger.does_want(channel) {
            let item = Item::Window;
            merger.take_in(channel, Packet::Item { number, item });
        }
        if merger.give().is_some() {
            given = given.wrapping_add(1);
        }
    }
    Some(given)
}

#[test]
fn a_million_items_by_turns(rt: HostRuntime) {
    let merger = TurnMerger::new(rt.alloc(), 4);
    assert!(rt; given(merger, 4, 1_000_000) == Some(1_000_000));
}

#[test]
fn a_million_items_by_numbers(rt: HostRuntime) {
    let merger = NumberMerger::new(rt.alloc(), 4);
    assert!(rt; given(merger, 4, 1_000_000) == Some(1_000_000));
}

// The last items wait for the other channels, since numbers may be missing.
#[test]
fn a_million_items_by_pulses(rt: HostRuntime) {
    let merger = PulseMerger::new(rt.alloc(), 4);
    assert!(rt; given(merger, 4, 1_000_000) == Some(999_997));
}
