ghost use Rattle.std.specs.Prelude.{◌≡◌, ◌≤◌, ◌<◌, ℕ, ◌++◌, ◌↔◌, true, false, List, [], None, Some, IfOk, IsNone, MatchOption};
ghost use Rattle.std.specs.Option.{option_to_list};
ghost use Rattle.spl_value.specs.declared.item.Item.{Item};
ghost use Rattle.spl_value.specs.declared.packet.Packet.{Packet};
ghost use Rattle.spl_value.specs.Numbered.{ByTurns, InOrder, merged, with_packet};
ghost use Rattle.channel_heads.specs.Held.{head_at, wants as wants_lem, width_of, takes, gives_head};
ghost use Rattle.order_merger.specs.Merging.{TurnStands, new_turning};

use channel_heads::Heads;
use spl_value::{Item, NoMemory, Packet};
use std::alloc::Global;
use std::marker::Model;

/// Merges channels of which each gives one item in its turn.
pub struct TurnMerger {
    heads: Heads,
    turn: usize,
}

impl Drop for TurnMerger {
    fn drop(self) {
        let TurnMerger { heads: _, turn: _ } = self;
    }
}

impl Model for TurnMerger {
    ghost use Rattle.std.specs.Prelude.{◌<◌};
    ghost use Rattle.std.specs.Coded.{codes};
    ghost use Rattle.channel_heads.specs.contracts.heads.Heads as heads_row;
    ghost use Rattle.channel_heads.specs.Held.{width_of};
    ghost use Rattle.order_merger.specs.Merging.{Turning};

    ghost Value = { Turning };

    ghost coded = { Prim.hlevel (codes, heads_row.the_row.coded) };

    ghost view = { λ m. record { held = m.heads; turn = m.turn } };

    ghost invariant = { λ m. m.turn < width_of m.heads };
}

impl TurnMerger {
    /// A merger of `width` channels, which has taken nothing. No later call takes memory.
    pub fn new(alloc: Global, width: u32) -> Result<TurnMerger, NoMemory>
        requires { (1 ≤ width) × (width ≤ 16) }
        ensures width { IfOk result (λ m. width_of m.held ≡ width) }
        ensures new { IfOk result (λ m. m ≡ new_turning width) }
        ensures stands { IfOk result (λ m. TurnStands width m (λ _. []) []) }
    {
        let heads = Heads::new(alloc, width as usize)?;
        Ok(TurnMerger { heads, turn: 0 })
    }

    /// Whether the channel has taken neither `Close` nor `Cut`, and holds no head.
    pub fn wants(&self, channel: u32) -> bool
        requires { channel < width_of self.now.held }
        ensures { result ≡ wants_lem self.now.held channel }
    {
        self.heads.wants(channel as usize)
    }

    /// Takes a packet on a channel that wants one.
    pub fn take(&mut self, channel: u32, packet: Packet)
        requires within { channel < width_of self.old.held }
        requires wants { wants_lem self.old.held channel ≡ true }
        ensures width { width_of self.new.held ≡ width_of self.old.held }
        ensures takes { self.new ≡ record self.old { held = takes channel packet self.old.held } }
        ensures stands { (width : ℕ) (taken : ℕ → List Packet) (given : List Item) → TurnStands width self.old taken given
            → TurnStands width self.new (with_packet taken channel packet) given }
    {
        self.heads.take(channel as usize, packet);
    }

    /// The head of the channel whose turn it is. None comes exactly where that channel holds none.
    pub fn emit(&mut self) -> Option<Item>
        ensures width { width_of self.new.held ≡ width_of self.old.held }
        ensures gives_head { MatchOption result ((head_at self.old.held self.old.turn ≡ None) × (self.new ≡ self.old))
            (λ x. (n : ℕ) × (head_at self.old.held self.old.turn ≡ Some (n, x)) × (self.new.held ≡ gives_head self.old.turn x self.old.held)) }
        ensures stands { (width : ℕ) (taken : ℕ → List Packet) (given : List Item) → TurnStands width self.old taken given
            → TurnStands width self.new taken (given ++ option_to_list result) }
        // What was given is the front of the merge, and all of it where nothing more comes and the merger wasn't cut.
        ensures front { (width : ℕ) (taken : ℕ → List Packet) (given : List Item) → TurnStands width self.old taken given → InOrder ByTurns width taken
            → (rest : List Item) × ((given ++ option_to_list result) ++ rest ≡ merged ByTurns width taken) }
        ensures whole { IsNone result → (width : ℕ) (taken : ℕ → List Packet) (given : List Item) → TurnStands width self.old taken given → InOrder ByTurns width taken
            → self.old.held.cut ≡ false → given ≡ merged ByTurns width taken }
    {
        match self.heads.give(self.turn) {
            Some(item) => {
                let width = self.heads.width();
                let next = self.turn + 1;
                self.turn = if next < width { next } else { 0 };
                Some(item)
            }
            None => None,
        }
    }

    /// Whether `Cut` was taken, and no final marker or fault had been given before.
    pub fn is_cut(&self) -> bool
        ensures { result ≡ self.now.held.cut }
    {
        self.heads.is_cut()
    }
}
