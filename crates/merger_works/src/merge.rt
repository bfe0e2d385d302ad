//! What the three kinds of mergers are to an element.
ghost use Rattle.std.specs.Prelude.{◌≡◌, ◌<◌, ◌++◌, ℕ, true, false, List, Some, IsNone, MatchOption};
ghost use Rattle.std.specs.Option.{option_to_list};
ghost use Rattle.spl_value.specs.declared.item.Item.{Item};
ghost use Rattle.spl_value.specs.declared.packet.Packet.{Packet};
ghost use Rattle.spl_value.specs.Numbered.{ByNumbers, ByPulses, ByTurns, InOrder, Rule, merged, with_packet};
ghost use Rattle.channel_heads.specs.Held.{Held, MergerHolds, gives_head, head_at, takes, wants, width_of};
ghost use Rattle.order_merger.specs.Merging.{NumberStands, TurnStands};

use order_merger::{NumberMerger, TurnMerger};
use pulse_rule::PulseMerger;
use spl_value::{Item, Packet};

/// A merger that takes packets one by one, and gives the items that are known to be the next.
pub trait Merge: Drop {
    /// How it knows that an item is the next.
    ghost rule: { Rule };

    /// What it holds.
    ghost held: { Self → Held };

    /// That it has so many channels, took these packets on them and gave these items.
    ghost stands: { ℕ → Self → (ℕ → List Packet) → List Item → Type 0 };

    /// Takes a packet on a channel that wants one.
    fn take(&mut self, channel: u32, packet: Packet)
        requires within { channel < width_of (held self.old) }
        requires wants { wants (held self.old) channel ≡ true }
        ensures takes { held self.new ≡ takes channel packet (held self.old) }
        ensures stands { (width : ℕ) (taken : ℕ → List Packet) (given : List Item) → stands width self.old taken given
            → stands width self.new (with_packet taken channel packet) given };

    /// A head that is the next item. None comes only where all that is merged was given.
    fn emit(&mut self) -> Option<Item>
        ensures gives { MatchOption result (self.new ≡ self.old)
            (λ x. (c n : ℕ) × (head_at (held self.old) c ≡ Some (n, x)) × (held self.new ≡ gives_head c x (held self.old))) }
        ensures stands { (width : ℕ) (taken : ℕ → List Packet) (given : List Item) → stands width self.old taken given
            → stands width self.new taken (given ++ option_to_list result) }
        ensures whole { IsNone result → (width : ℕ) (taken : ℕ → List Packet) (given : List Item) → stands width self.old taken given
            → InOrder rule width taken → (held self.old).cut ≡ false → given ≡ merged rule width taken };
}

impl Merge for TurnMerger {
    ghost rule = { ByTurns };

    ghost held = { λ m. m.held };

    ghost stands = { TurnStands };

    #[inline(always)]
    fn take(&mut self, channel: u32, packet: Packet) {
        self.take(channel, packet);
    }

    #[inline(always)]
    fn emit(&mut self) -> Option<Item> {
        self.emit()
    }
}

impl Merge for NumberMerger {
    ghost rule = { ByNumbers };

    ghost held = { λ m. m.held };

    ghost stands = { NumberStands };

    #[inline(always)]
    fn take(&mut self, channel: u32, packet: Packet) {
        self.take(channel, packet);
    }

    #[inline(always)]
    fn emit(&mut self) -> Option<Item> {
        self.emit()
    }
}

impl Merge for PulseMerger {
    ghost rule = { ByPulses };

    ghost held = { λ m. m };

    ghost stands = { MergerHolds ByPulses };

    #[inline(always)]
    fn take(&mut self, channel: u32, packet: Packet) {
        self.take(channel, packet);
    }

    #[inline(always)]
    fn emit(&mut self) -> Option<Item> {
        self.emit()
    }
}
