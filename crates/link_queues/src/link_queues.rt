//! Links and what waits on them.
ghost use Rattle.std.specs.Prelude.{◌≡◌, ◌+◌, ◌<◌, ◌≤◌, ◌^◌, ◌++◌, ◌∷◌, ◌==◌, ℕ, List, [], IfOk, MatchOption, length, not, nat_lt, replicate, slice_get, slice_set, Some};
ghost use Rattle.spl_value.specs.declared.packet.Packet.{Packet as PacketSpec};
ghost use Rattle.stream_model.specs.declared.shape.ShapeLink.{ShapeLink as LinkSpec};
ghost use Rattle.stream_model.specs.Stream.{is_empty};
ghost use Rattle.link_queues.specs.Ends.{IsLeading, LeadsTo};
ghost use Rattle.link_queues.specs.Links.{waits_on};

use crate::ends::{entering_links, find_output, leading_links};
use crate::queue::Queue;
use spl_value::{Ids, Items, NoMemory, Packet};
use std::alloc::Global;
use std::marker::Model;
use stream_model::{LinkEnds, ShapeLink};

/// The links between so many elements, and the packets that wait on each. Room for them was made at first: no call but
/// `new` takes memory.
#[derive(Drop)]
pub struct LinkQueues {
    ends: LinkEnds,
    queues: Items<Queue>,
    capacity: u32,
    /// By element, the links that lead to it.
    entering: Items<Ids>,
    /// By element, the links that lead away from it.
    leading: Items<Ids>,
}

impl Model for LinkQueues {
    ghost use Rattle.std.specs.Coded.{codes};
    ghost use Rattle.std.specs.Prelude.{length, map};
    ghost use Rattle.spl_value.specs.contracts.packet.Packet as packet_row;
    ghost use Rattle.stream_model.specs.contracts.shape.ShapeLink as link_row;
    ghost use Rattle.link_queues.specs.Links.{Links, Waiting};

    ghost Value = { Links };

    ghost coded = { Prim.hlevel (codes, packet_row.the_row.coded, link_row.the_row.coded) };

    ghost use Rattle.link_queues.specs.Kept.{IsKept};

    ghost view = { λ q. record { ends = q.ends; waiting = map (λ (w : Waiting). w.packets) q.queues; capacity = q.capacity; elements = length q.entering } };

    ghost invariant = { λ q. IsKept q.ends q.queues q.capacity q.entering q.leading };
}

/// So many queues, each with room for so many packets.
fn empty_queues(alloc: Global, count: usize, room: u32) -> Result<Items<Queue>, NoMemory>
    ensures { IfOk result (λ queues. queues ≡ replicate count (record { packets = []; room = room })) }
{
    let mut queues = Vec::with_capacity(alloc, count)?;
    for _ in 0..count {
        queues.push(Queue::new(alloc, room)?)?;
    }
    Ok(Items::from_vec(queues))
}

impl LinkQueues {
    /// These links between so many elements, with room for so many packets on each, and no packet.
    pub fn new(
        alloc: Global,
        ends: LinkEnds,
        elements: u32,
        capacity: u32,
    ) -> Result<LinkQueues, NoMemory>
        requires few { length ends < 2 ^ 32 }
        requires within { (l : ℕ) (x : LinkSpec) → slice_get ends l ≡ Some x → (x.from < elements) × (x.to < elements) }
        ensures { IfOk result (λ links. links ≡ record { ends = ends; waiting = replicate (length ends) []; capacity = capacity; elements = elements }) }
    {
        let entering = entering_links(alloc, ends.as_slice(), elements)?;
        let leading = leading_links(alloc, ends.as_slice(), elements)?;
        let queues = empty_queues(alloc, ends.len(), capacity)?;
        Ok(LinkQueues {
            ends,
            queues,
            capacity,
            entering,
            leading,
        })
    }

    /// How many links there are.
    #[inline(always)]
    pub fn len(&self) -> u32
        ensures { result ≡ length self.now.ends }
    {
        self.ends.len() as u32
    }

    /// The ends of a link.
    #[inline(always)]
    pub fn ends(&self, link: u32) -> ShapeLink
        requires within { link < length self.now.ends }
        ensures { slice_get self.now.ends link ≡ Some result }
    {
        self.ends.as_slice()[link as usize]
    }

    /// How many packets wait on a link.
    #[inline(always)]
    fn waiting(&self, link: u32) -> usize
        requires within { link < length self.now.ends }
        ensures { result ≡ length (waits_on self.now link) }
    {
        match self.queues.get(link as usize) {
            Some(queue) => queue.len(),
            None => 0,
        }
    }

    /// Whether a packet waits on a link.
    #[inline(always)]
    pub fn waits(&self, link: u32) -> bool
        requires within { link < length self.now.ends }
        ensures { result ≡ not (is_empty (waits_on self.now link)) }
    {
        self.waiting(link) != 0
    }

    /// Whether a link has room for one packet more.
    #[inline(always)]
    pub fn has_room(&self, link: u32) -> bool
        requires within { link < length self.now.ends }
        ensures { result ≡ nat_lt (length (waits_on self.now link)) self.now.capacity }
    {
        self.waiting(link) < self.capacity as usize
    }

    /// Adds a packet behind those that wait on a link, which has room for it.
    #[inline(always)]
    pub fn push(&mut self, link: u32, packet: Packet)
        requires within { link < length self.old.ends }
        requires room { length (waits_on self.old link) < self.old.capacity }
        ensures { self.new ≡ record self.old { waiting = slice_set self.old.waiting link (waits_on self.old link ++ packet ∷ []) } }
    {
        self.queues.item_mut(link as usize).push(packet);
    }

    /// Takes out the first packet that waits on a link.
    #[inline(always)]
    pub fn pop(&mut self, link: u32) -> Option<Packet>
        requires within { link < length self.old.ends }
        ensures { MatchOption result ((waits_on self.old link ≡ []) × (self.new ≡ self.old))
            (λ p. (rest : List PacketSpec) × (waits_on self.old link ≡ p ∷ rest) × (self.new ≡ record self.old { waiting = slice_set self.old.waiting link rest })) }
    {
        self.queues.item_mut(link as usize).pop()
    }

    /// The links that lead to an element.
    #[inline(always)]
    pub fn entering(&self, element: u32) -> &[u32]
        requires within { element < self.now.elements }
        ensures { LeadsTo self.now.ends element result.now }
    {
        match self.entering.get(element as usize) {
            Some(row) => row.as_slice(),
            None => unreachable!(),
        }
    }

    /// The link that leads away from an output of an element. Where links stand in the order of the outputs of their
    /// elements, no other links of the element are looked at.
    pub fn leading(&self, element: u32, output: u32) -> Option<u32>
        requires within { element < self.now.elements }
        ensures { IsLeading self.now.ends element output result }
    {
        match self.leading.get(element as usize) {
            Some(row) => find_output(self.ends.as_slice(), row.as_slice(), output),
            None => None,
        }
    }
}
