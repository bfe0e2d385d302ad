ghost use Rattle.std.specs.Prelude.{◌≡◌, ◌≤◌, ◌<◌, ℕ, ◌++◌, ◌↔◌, true, false, List, [], None, Some, IfOk, IsNone, MatchOption};
ghost use Rattle.std.specs.Option.{option_to_list};
ghost use Rattle.spl_value.specs.declared.item.Item.{Item};
ghost use Rattle.spl_value.specs.declared.packet.Packet.{Packet};
ghost use Rattle.spl_value.specs.Numbered.{ByPulses, InOrder, merged, with_packet};
ghost use Rattle.channel_heads.specs.Held.{MergerHolds, IsLeast, head_at, is_waiting, new_held, wants as wants_lem, width_of, takes, gives_head};
ghost use Rattle.pulse_rule.specs.Merging.{IsHeldBack};

use channel_heads::Heads;
use spl_value::{Item, NoMemory, Packet};
use std::alloc::Global;
use std::marker::Model;

/// Merges channels on which numbers may be missing and may come again, and pulses tell how far a channel is.
pub struct PulseMerger {
    heads: Heads,
}

impl Drop for PulseMerger {
    fn drop(self) {
        let PulseMerger { heads: _ } = self;
    }
}

impl Model for PulseMerger {
    ghost use Rattle.std.specs.Coded.{codes};
    ghost use Rattle.channel_heads.specs.contracts.heads.Heads as heads_row;
    ghost use Rattle.channel_heads.specs.Held.{Held};

    ghost Value = { Held };

    ghost coded = { Prim.hlevel (codes, heads_row.the_row.coded) };

    ghost view = { λ m. m.heads };
}

impl PulseMerger {
    /// A merger of `width` channels, which has taken nothing. No later call takes memory.
    pub fn new(alloc: Global, width: u32) -> Result<PulseMerger, NoMemory>
        requires { (1 ≤ width) × (width ≤ 16) }
        ensures width { IfOk result (λ m. width_of m ≡ width) }
        ensures new { IfOk result (λ m. m ≡ new_held width) }
        ensures stands { IfOk result (λ m. MergerHolds ByPulses width m (λ _. []) []) }
    {
        let heads = Heads::new(alloc, width as usize)?;
        Ok(PulseMerger { heads })
    }

    /// Whether the channel has taken neither `Close` nor `Cut`, and holds no head.
    pub fn wants(&self, channel: u32) -> bool
        requires { channel < width_of self.now }
        ensures { result ≡ wants_lem self.now channel }
    {
        self.heads.wants(channel as usize)
    }

    /// Takes a packet on a channel that wants one.
    pub fn take(&mut self, channel: u32, packet: Packet)
        requires within { channel < width_of self.old }
        requires wants { wants_lem self.old channel ≡ true }
        ensures width { width_of self.new ≡ width_of self.old }
        ensures takes { self.new ≡ takes channel packet self.old }
        ensures stands { (width : ℕ) (taken : ℕ → List Packet) (given : List Item) → MergerHolds ByPulses width self.old taken given
            → MergerHolds ByPulses width self.new (with_packet taken channel packet) given }
    {
        self.heads.take(channel as usize, packet);
    }

    /// The head of the least number. None comes exactly where there is no head, or an item of a smaller number
    /// may still come on a channel without one.
    pub fn emit(&mut self) -> Option<Item>
        ensures width { width_of self.new ≡ width_of self.old }
        ensures none { IsNone result ↔ IsHeldBack self.old }
        ensures gives_head { MatchOption result (self.new ≡ self.old)
            (λ x. (c n : ℕ) × (head_at self.old c ≡ Some (n, x)) × IsLeast self.old n × (self.new ≡ gives_head c x self.old)) }
        ensures stands { (width : ℕ) (taken : ℕ → List Packet) (given : List Item) → MergerHolds ByPulses width self.old taken given
            → MergerHolds ByPulses width self.new taken (given ++ option_to_list result) }
        // What was given is the front of the merge, and all of it where nothing more comes and the merger wasn't cut.
        ensures front { (width : ℕ) (taken : ℕ → List Packet) (given : List Item) → MergerHolds ByPulses width self.old taken given → InOrder ByPulses width taken
            → (rest : List Item) × ((given ++ option_to_list result) ++ rest ≡ merged ByPulses width taken) }
        ensures whole { IsNone result → (width : ℕ) (taken : ℕ → List Packet) (given : List Item) → MergerHolds ByPulses width self.old taken given → InOrder ByPulses width taken
            → self.old.cut ≡ false → given ≡ merged ByPulses width taken }
    {
        match self.next() {
            Some(channel) => self.heads.give(channel),
            None => None,
        }
    }

    // The channel whose head is the next.
    fn next(&self) -> Option<usize>
        ensures { MatchOption result (IsHeldBack self.now)
            (λ c. (c < width_of self.now) × (n : ℕ) × (x : Item) × (head_at self.now c ≡ Some (n, x)) × IsLeast self.now n
            × ((d : ℕ) → d < width_of self.now → is_waiting self.now n d ≡ false)) }
    {
        match self.heads.least() {
            Some(number) => {
                if self.heads.is_awaited(number) {
                    None
                } else {
                    self.heads.with_number(u128::from(number))
                }
            }
            None => None,
        }
    }

    /// Whether `Cut` was taken, and no final marker or fault had been given before.
    pub fn is_cut(&self) -> bool
        ensures { result ≡ self.now.cut }
    {
        self.heads.is_cut()
    }
}
