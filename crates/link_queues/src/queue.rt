//! The packets of one link.
ghost use Rattle.std.specs.Prelude.{◌≡◌, ◌++◌, ◌∷◌, ◌<◌, [], IfOk, MatchOption, length};

use spl_value::{NoMemory, Packet};
use std::alloc::Global;
use std::collections::VecDeque;
use std::marker::Model;

/// Packets that wait in order, in room that was made for them. Contracts see the packets, and for how many there is room.
#[derive(Drop)]
pub(crate) struct Queue {
    packets: VecDeque<Packet>,
}

impl Model for Queue {
    ghost use Rattle.std.specs.Coded.{codes};
    ghost use Rattle.std.specs.VecDeque.{deque_capacity};
    ghost use Rattle.spl_value.specs.contracts.packet.Packet as packet_row;
    ghost use Rattle.link_queues.specs.Links.{Waiting};

    ghost Value = { Waiting };

    ghost coded = { Prim.hlevel (codes, packet_row.the_row.coded) };

    ghost view = { λ q. record { packets = q.packets.items; room = deque_capacity q.packets } };
}

impl Queue {
    /// No packet, and room for so many.
    pub(crate) fn new(alloc: Global, room: u32) -> Result<Queue, NoMemory>
        ensures { IfOk result (λ q. q ≡ record { packets = []; room = room }) }
    {
        Ok(Queue {
            packets: VecDeque::with_capacity(alloc, room as usize)?,
        })
    }

    #[inline(always)]
    pub(crate) fn len(&self) -> usize
        ensures { result ≡ length self.now.packets }
    {
        self.packets.len()
    }

    /// Adds a packet behind the others, for which there is room.
    #[inline(always)]
    pub(crate) fn push(&mut self, packet: Packet)
        requires { length self.old.packets < self.old.room }
        ensures { self.new ≡ record self.old { packets = self.old.packets ++ packet ∷ [] } }
    {
        self.packets.push_back_reserved(packet);
    }

    /// Takes the first packet out.
    #[inline(always)]
    pub(crate) fn pop(&mut self) -> Option<Packet>
        ensures none { MatchOption result ((self.old.packets ≡ []) × (self.new.packets ≡ [])) (λ p. self.old.packets ≡ p ∷ self.new.packets) }
        ensures room { self.new.room ≡ self.old.room }
    {
        self.packets.pop_front()
    }
}
