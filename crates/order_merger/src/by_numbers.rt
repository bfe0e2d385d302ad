ghost use Rattle.std.specs.Prelude.{◌≡◌, ◌≢◌, ◌≤◌, ◌<◌, ℕ, ◌+◌, ◌++◌, true, false, List, [], Some, IfOk, IsNone, MatchOption};
ghost use Rattle.std.specs.Option.{option_to_list};
ghost use Rattle.spl_value.specs.declared.item.Item.{Item};
ghost use Rattle.spl_value.specs.declared.packet.Packet.{Packet};
ghost use Rattle.spl_value.specs.Numbered.{ByNumbers, InOrder, merged, with_packet};
ghost use Rattle.channel_heads.specs.Held.{head_at, wants as wants_lem, width_of, takes, gives_head};
ghost use Rattle.order_merger.specs.Merging.{NumberStands, new_numbering};

use channel_heads::Heads;
use spl_value::{Item, NoMemory, Packet};
use std::alloc::Global;
use std::marker::Model;

/// Merges channels whose items have the numbers 0, 1, .. between them.
pub struct NumberMerger {
    heads: Heads,
    next: u128,
}

impl Drop for NumberMerger {
    fn drop(self) {
        let NumberMerger { heads: _, next: _ } = self;
    }
}

impl Model for NumberMerger {
    ghost use Rattle.std.specs.Coded.{codes};
    ghost use Rattle.channel_heads.specs.contracts.heads.Heads as heads_row;
    ghost use Rattle.order_merger.specs.Merging.{Numbering};

    ghost Value = { Numbering };

    ghost coded = { Prim.hlevel (codes, heads_row.the_row.coded) };

    ghost view = { λ m. record { held = m.heads; next = m.next } };
}

impl NumberMerger {
    /// A merger of `width` channels, which has taken nothing. No later call takes memory.
    pub fn new(alloc: Global, width: u32) -> Result<NumberMerger, NoMemory>
        requires { (1 ≤ width) × (width ≤ 16) }
        ensures width { IfOk result (λ m. width_of m.held ≡ width) }
        ensures new { IfOk result (λ m. m ≡ new_numbering width) }
        ensures stands { IfOk result (λ m. NumberStands width m (λ _. []) []) }
    {
        let heads = Heads::new(alloc, width as usize)?;
        Ok(NumberMerger { heads, next: 0 })
    }

    /// Whether the channel has taken neither `Close` nor `Cut`, and holds no head.
    pub fn wants(&self, channel: u32) -> bool
        requires { channel < width_of self.now.held }
        ensures { result ≡ wants_lem self.now.held channel }
    {
        self.heads.wants(channel as usize)
    }

    /// Takes a packet on a channel that wants one.
    pub fn take(&mut self, channel: u32, packet: Packet)
        requires within { channel < width_of self.old.held }
        requires wants { wants_lem self.old.held channel ≡ true }
        ensures width { width_of self.new.held ≡ width_of self.old.held }
        ensures takes { self.new ≡ record self.old { held = takes channel packet self.old.held } }
        ensures stands { (width : ℕ) (taken : ℕ → List Packet) (given : List Item) → NumberStands width self.old taken given
            → NumberStands width self.new (with_packet taken channel packet) given }
    {
        self.heads.take(channel as usize, packet);
    }

    /// The head with the next number. None comes exactly where no head has it.
    pub fn emit(&mut self) -> Option<Item>
        ensures width { width_of self.new.held ≡ width_of self.old.held }
        ensures gives_head { MatchOption result
            (((c n : ℕ) (x : Item) → head_at self.old.held c ≡ Some (n, x) → n ≢ self.old.next) × (self.new ≡ self.old))
            (λ x. (c : ℕ) × (head_at self.old.held c ≡ Some (self.old.next, x)) × (self.new ≡ record { held = gives_head c x self.old.held; next = self.old.next + 1 })) }
        ensures stands { (width : ℕ) (taken : ℕ → List Packet) (given : List Item) → NumberStands width self.old taken given
            → NumberStands width self.new taken (given ++ option_to_list result) }
        // What was given is the front of the merge, and all of it where nothing more comes and the merger wasn't cut.
        ensures front { (width : ℕ) (taken : ℕ → List Packet) (given : List Item) → NumberStands width self.old taken given → InOrder ByNumbers width taken
            → (rest : List Item) × ((given ++ option_to_list result) ++ rest ≡ merged ByNumbers width taken) }
        ensures whole { IsNone result → (width : ℕ) (taken : ℕ → List Packet) (given : List Item) → NumberStands width self.old taken given → InOrder ByNumbers width taken
            → self.old.held.cut ≡ false → given ≡ merged ByNumbers width taken }
    {
        match self.heads.with_number(self.next) {
            Some(channel) => {
                let item = self.heads.give(channel);
                self.next += 1;
                item
            }
            None => None,
        }
    }

    /// Whether `Cut` was taken, and no final marker or fault had been given before.
    pub fn is_cut(&self) -> bool
        ensures { result ≡ self.now.held.cut }
    {
        self.heads.is_cut()
    }
}
