//! Packets that wait.
ghost use Rattle.std.specs.Prelude.{◌≡◌, ◌++◌, ◌∷◌, [], IfOk, IsNone, ◌↔◌, IsTrue, MatchOption, Some, None, List};
ghost use Rattle.stream_model.specs.declared.outgoing.Outgoing.{Outgoing as OutgoingSpec};
ghost use Rattle.stream_model.specs.Sending.{outgoing};
ghost use Rattle.element_outboxes.specs.Waiting.{IsFree, waits};

use spl_value::{NoMemory, Packet};
use std::alloc::Global;
use std::collections::VecDeque;
use stream_model::Outgoing;

/// The packets that wait to be put, in their order. The first has a place of its own, so that one that is given
/// back takes no memory, nor does a packet that comes while none waits.
#[derive(Drop)]
pub struct Outbox {
    pub(crate) front: Option<Outgoing>,
    pub(crate) queue: VecDeque<Outgoing>,
}

#[inline(always)]
fn output_of(waiting: &Outgoing) -> u32
    ensures { result ≡ waiting.now.output }
{
    waiting.output
}

impl Outbox {
    pub fn new(alloc: Global) -> Outbox
        ensures { waits result ≡ [] }
    {
        Outbox {
            front: None,
            queue: VecDeque::new(alloc),
        }
    }

    #[inline(always)]
    pub fn is_empty(&self) -> bool
        ensures { IsTrue result ↔ (waits self.now ≡ []) }
    {
        self.front.is_none() && self.queue.is_empty()
    }

    /// The output of the first one.
    pub fn next(&self) -> Option<u32>
        ensures { MatchOption result (waits self.now ≡ []) (λ o. (s : OutgoingSpec) × (rest : List OutgoingSpec) × (waits self.now ≡ s ∷ rest) × (s.output ≡ o)) }
    {
        match &self.front {
            Some(waiting) => Some(output_of(waiting)),
            None => match self.queue.front() {
                Some(waiting) => Some(output_of(waiting)),
                None => None,
            },
        }
    }

    /// Adds a packet behind the others.
    #[inline(always)]
    pub fn add(&mut self, output: u32, packet: Packet) -> Result<(), NoMemory>
        ensures { IfOk result (λ _. waits self.new ≡ waits self.old ++ outgoing output packet ∷ []) }
    {
        let added = Outgoing { output, packet };
        if self.is_empty() {
            self.front = Some(added);
            return Ok(());
        }
        self.queue.push_back(added)?;
        Ok(())
    }

    /// Takes the first one out.
    #[inline(always)]
    pub fn take(&mut self) -> Option<Outgoing>
        ensures taken { MatchOption result ((waits self.old ≡ []) × (waits self.new ≡ [])) (λ s. waits self.old ≡ s ∷ waits self.new) }
        ensures free { IsFree self.new }
    {
        if self.front.is_some() {
            return self.front.take();
        }
        self.queue.pop_front()
    }

    /// Gives back the one that was taken out last.
    pub fn give_back(&mut self, output: u32, packet: Packet)
        requires { IsFree self.old }
        ensures { waits self.new ≡ outgoing output packet ∷ waits self.old }
    {
        self.front = Some(Outgoing { output, packet });
    }

    /// Drops them all.
    pub fn clear(&mut self)
        ensures { waits self.new ≡ [] }
    {
        self.front = None;
        self.queue.clear();
    }
}
