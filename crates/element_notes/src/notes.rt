//! What an element notes.
ghost use Rattle.std.specs.Prelude.{◌≡◌, ◌<◌, ◌≤◌, ◌^◌, ◌++◌, ◌∷◌, [], IfOk, List, ℕ, length, replicate, if◌then◌else◌};
ghost use Rattle.spl_value.specs.declared.packet.Packet.{Packet as PacketSpec};
ghost use Rattle.spl_value.specs.declared.value.Value.{Value};
ghost use Rattle.stream_model.specs.declared.outgoing.Outgoing.{Outgoing};
ghost use Rattle.stream_model.specs.Sending.{outgoing};
ghost use Rattle.network_model.specs.Networks.{Part, outputs as outputs_of};
ghost use Rattle.network_model.specs.Receipts.{Receipt};
ghost use Rattle.operator_chains.specs.declared.how.How.TheVariants as H;
ghost use Rattle.element_notes.specs.Endings.{IsEnding, arrivals_of, ends_as, how_ended, is_recorded, sent_on};
ghost use Rattle.element_notes.specs.Noting.{HasEnds, HasNoted, HasRoom};

use crate::ending::{Ending, Ends, Numbers};
use crate::ends::{ends_of, set_hows};
use operator_chains::How;
use spl_value::{Items, NoMemory, Packet};
use std::alloc::Global;

/// What an element notes for its ending. Its lists have all their room but that of the record, which grows.
#[derive(Drop)]
pub struct Notes {
    /// Whether the inputs of its events are recorded.
    pub(crate) records: bool,
    pub(crate) arrivals: Vec<u32>,
    /// How its last operator stands, or the stream that it makes where it has none.
    pub(crate) how: How,
    /// The ends of that operator, each as it stands before the first event.
    pub(crate) ends: Ends,
    pub(crate) sent: Numbers,
    pub(crate) poured: u64,
}

/// Of so many outputs that nothing was put.
fn no_counts(alloc: Global, count: usize) -> Result<Numbers, NoMemory>
    ensures { IfOk result (λ sent. sent ≡ replicate count 0) }
{
    let sent = vec![in alloc; 0u64; count]?;
    Ok(Items::from_vec(sent))
}

/// No end where there is no operator whose ends are the element's.
fn ends_by(alloc: Global, last: Option<u32>, fans: &[u32]) -> Result<Ends, NoMemory>
    requires few { length fans.now < 2 ^ 32 }
    ensures { IfOk result (λ ends. (part : Part) → HasEnds part last fans.now → ends ≡ ends_as part H.Live) }
{
    match last {
        Some(op) => ends_of(alloc, op, fans),
        None => Ok(Items::new(alloc)),
    }
}

impl Notes {
    /// The notes of an element that has taken and put nothing: whether it has a record, the operator whose ends are its,
    /// the number of connections of each port of that one, and the number of its outputs.
    pub fn new(
        alloc: Global,
        records: bool,
        last: Option<u32>,
        fans: &[u32],
        outputs: usize,
    ) -> Result<Notes, NoMemory>
        requires few { length fans.now < 2 ^ 32 }
        ensures begins { IfOk result (λ notes. (part : Part) → records ≡ is_recorded part → HasEnds part last fans.now
            → outputs ≡ outputs_of part → HasNoted part notes [] [] []) }
    {
        Ok(Notes {
            records,
            arrivals: Vec::new(alloc),
            how: How::Live,
            ends: ends_by(alloc, last, fans)?,
            sent: no_counts(alloc, outputs)?,
            poured: 0,
        })
    }

    /// Whether the inputs of its events are recorded.
    #[inline(always)]
    pub fn records(&self) -> bool
        ensures { result ≡ self.now.records }
    {
        self.records
    }

    /// How its last operator stands.
    #[inline(always)]
    pub fn how(&self) -> How
        ensures { result ≡ self.now.how }
    {
        self.how
    }

    /// Makes room for one entry more of the record, where there is to be one.
    #[inline(always)]
    pub fn reserve(&mut self, recorded: bool) -> Result<(), NoMemory>
        ensures room { IfOk result (λ _. HasRoom recorded self.new) }
        ensures how { self.new.how ≡ self.old.how }
        ensures same { (part : Part) (kept : List Receipt) (pushed : List Outgoing) (poured : List (List Value))
            → HasNoted part self.old kept pushed poured → HasNoted part self.new kept pushed poured }
    {
        if recorded {
            self.arrivals.reserve(1)?;
        }
        Ok(())
    }

    /// Notes that something more was taken: its input, where the event is recorded, and how the last operator stands
    /// behind it.
    #[inline(always)]
    pub fn take(&mut self, recorded: bool, input: u32, how: How)
        requires room { HasRoom recorded self.old }
        ensures takes { (part : Part) (kept more : List Receipt) (pushed : List Outgoing) (poured : List (List Value))
            → HasNoted part self.old kept pushed poured
            → arrivals_of part more ≡ (if recorded then arrivals_of part kept ++ input ∷ [] else arrivals_of part kept)
            → how ≡ how_ended part more → HasNoted part self.new more pushed poured }
    {
        self.how = how;
        if recorded {
            self.arrivals.push_reserved(input);
        }
    }

    /// Notes that a packet is put on an output. How many items were put there before.
    #[inline(always)]
    pub fn put(&mut self, output: u32, packet: &Packet) -> u64
        ensures puts { (part : Part) (kept : List Receipt) (pushed : List Outgoing) (poured : List (List Value))
            → HasNoted part self.old kept pushed poured
            → HasNoted part self.new kept (pushed ++ outgoing output packet.now ∷ []) poured }
        ensures before { (part : Part) (kept : List Receipt) (pushed : List Outgoing) (poured : List (List Value))
            → HasNoted part self.old kept pushed poured → output < outputs_of part → result ≡ sent_on output pushed }
    {
        let Some(before) = self.sent.get(output as usize) else {
            return 0;
        };
        let before = *before;
        if let Packet::Item { .. } = packet {
            self.sent.set(output as usize, before.saturating_add(1));
        }
        before
    }

    /// Notes that the packet that was put last is given back, on an output on which so many items had been put before it.
    pub fn unput(&mut self, output: u32, before: u64)
        ensures { (part : Part) (kept : List Receipt) (pushed : List Outgoing) (poured : List (List Value)) (packet : PacketSpec)
            → HasNoted part self.old kept (pushed ++ outgoing output packet ∷ []) poured
            → (output < outputs_of part → before ≡ sent_on output pushed) → HasNoted part self.new kept pushed poured }
    {
        if (output as usize) < self.sent.len() {
            self.sent.set(output as usize, before);
        }
    }

    /// Notes that a tuple was handed out for the sink.
    #[inline(always)]
    pub fn pour(&mut self)
        ensures { (part : Part) (kept : List Receipt) (pushed : List Outgoing) (poured : List (List Value)) (tuple : List Value)
            → HasNoted part self.old kept pushed poured → HasNoted part self.new kept pushed (poured ++ tuple ∷ []) }
    {
        self.poured = self.poured.saturating_add(1);
    }

    /// What the element tells, and whether it was cut. It takes no memory.
    pub fn finish(self, cut: bool) -> Ending
        ensures { (part : Part) (kept : List Receipt) (pushed : List Outgoing) (poured : List (List Value))
            → HasNoted part self kept pushed poured → IsEnding part kept pushed poured cut result }
    {
        let Notes {
            records: _,
            arrivals,
            how,
            ends,
            sent,
            poured,
        } = self;
        let mut ends = ends.into_vec();
        set_hows(ends.as_mut_slice(), how);
        Ending {
            arrivals: Items::from_vec(arrivals),
            ends: Items::from_vec(ends),
            sent,
            tuples: poured,
            cut,
        }
    }
}
