ghost use Rattle.std.specs.Prelude.{◌≡◌, ◌+◌, ◌<◌, ◌≤◌, ◌^◌, ◌↔◌, true, IsSome, IfSome, IfNone};
ghost use Rattle.spl_value.specs.declared.packet.Packet.TheVariants as P;
ghost use Rattle.spl_value.specs.Route.{route};
ghost use Rattle.hash_splitter.specs.Splitting.{new_splitting, IsRoutable, is_pulse_due};

use spl_value::{Item, Packet, Routing, hash_key};
use std::marker::Model;

// A pulse is due after this number of items.
const PULSE_EVERY: u64 = 16;

/// Sends the items that enter a region to its channels, numbered from 0.
///
/// Contracts see it as a `Splitting`: what it was made of, how many items were sent, and after how many of
/// them the last pulse was given.
pub struct Splitter {
    width: u32,
    routing: Routing,
    pulses: bool,
    sent: u64,
    pulsed: u64,
}

impl Drop for Splitter {
    fn drop(self) {
        let Splitter {
            width: _,
            routing: _,
            pulses: _,
            sent: _,
            pulsed: _,
        } = self;
    }
}

impl Model for Splitter {
    ghost use Rattle.std.specs.Coded.{codes};
    ghost use Rattle.spl_value.specs.contracts.routing.Routing as routing_row;
    ghost use Rattle.std.specs.Prelude.{◌<◌};
    ghost use Rattle.hash_splitter.specs.Splitting.{Splitting};

    ghost Value = { Splitting };

    ghost coded = { Prim.hlevel (codes, routing_row.the_row.coded) };

    ghost view = { λ s. record { width = s.width; routing = s.routing; pulses = s.pulses; sent = s.sent; pulsed = s.pulsed } };

    ghost invariant = { λ s. 0 < s.width };
}

// The channel of the item with this number.
fn channel_of(routing: &Routing, width: u32, number: u64, item: &Item) -> u32
    requires width { 0 < width }
    requires routable { IsRoutable routing.now item.now }
    ensures value { result ≡ route routing.now width number item.now }
    ensures within { result < width }
{
    let spread = match (routing, item) {
        (Routing::Key(key), Item::Tuple(values)) => hash_key(values, key),
        _ => number,
    };
    (spread % u64::from(width)) as u32
}

impl Splitter {
    /// A splitter for `width` channels, which gives pulses where `pulses` is true.
    pub fn new(width: u32, routing: Routing, pulses: bool) -> Splitter
        requires { (1 ≤ width) × (width ≤ 16) }
        ensures { result ≡ new_splitting width routing pulses }
    {
        Splitter {
            width,
            routing,
            pulses,
            sent: 0,
            pulsed: 0,
        }
    }

    /// The channel that the item goes to, and the packet that goes there.
    pub fn send(&mut self, item: Item) -> (u32, Packet)
        requires room { self.old.sent < 2 ^ 61 }
        requires routable { IsRoutable self.old.routing item }
        ensures channel { result.0 ≡ route self.old.routing self.old.width self.old.sent item }
        ensures within { result.0 < self.old.width }
        ensures packet { result.1 ≡ P.Item self.old.sent item }
        ensures after { self.new ≡ record self.old { sent = self.old.sent + 1 } }
    {
        let number = self.sent;
        let channel = channel_of(&self.routing, self.width, number, &item);
        self.sent = number + 1;
        (channel, Packet::Item { number, item })
    }

    /// The number of items sent, where a pulse is due: after each 16 items, once.
    pub fn pulse(&mut self) -> Option<u64>
        ensures due { IsSome result ↔ (is_pulse_due self.old ≡ true) }
        ensures some { IfSome result (λ n. (n ≡ self.old.sent) × (self.new ≡ record self.old { pulsed = n })) }
        ensures none { IfNone result (self.new ≡ self.old) }
        ensures kept { self.new ≡ record self.old { pulsed = self.new.pulsed } }
    {
        let n = self.sent;
        if self.pulses && n > 0 && n % PULSE_EVERY == 0 && self.pulsed != n {
            self.pulsed = n;
            Some(n)
        } else {
            None
        }
    }
}
