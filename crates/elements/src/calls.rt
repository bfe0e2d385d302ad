//! The calls of an element.
ghost use Rattle.std.specs.Prelude.{◌≡◌, ◌<◌, ◌∷◌, ◌++◌, ◌&&◌, ◌||◌, [], not, true, false, IfOk, IfErr, IsTrue, ◌↔◌, List, MatchOption, Some, slice_get};
ghost use Rattle.spl_value.specs.declared.item.Item.TheVariants as I;
ghost use Rattle.spl_value.specs.declared.value.Value.{Value};
ghost use Rattle.spl_value.specs.declared.types.Named.{Named};
ghost use Rattle.spl_value.specs.declared.types.SplType.{SplType};
ghost use Rattle.stream_model.specs.declared.outgoing.Outgoing.{Outgoing as OutgoingSpec};
ghost use Rattle.stream_model.specs.Sending.{outgoing};
ghost use Rattle.network_model.specs.Legal.{wants_at};
ghost use Rattle.network_model.specs.Networks.{Part, inputs};
ghost use Rattle.network_model.specs.Packets.{has_last};
ghost use Rattle.network_model.specs.Receipts.{Popped, WasRead, popped};
ghost use Rattle.network_model.specs.States.{At, all_taken, cut_off, drops, puts, takes, waiting};
ghost use Rattle.element_notes.specs.Endings.{arrivals_of, ends_of, poured_count, sent_of};
ghost use Rattle.elements.specs.declared.input.Input.{Input as InputSpec};
ghost use Rattle.elements.specs.Inputs.{follows};
ghost use Rattle.elements.specs.Standing.{ComesNext, IsAt, IsNext, IsSpent, MayRead, MayTake, Poured, WasPut, schemas_of};

use crate::element::Element;
use crate::input::{all_ended, note_taken};
use crate::next::Next;
use crate::output::{first_open, note_put, set_ended};
use crate::work::{Work, is_recorded, work_takes, work_wants};
use element_notes::Ending;
use element_outboxes::closes;
use element_works::{run_chain, run_tuple};
use spl_value::{Item, NoMemory, Packet, Values};
use stream_model::React;

impl<R: React> Element<R> {
    /// Reads an item of the source. Where there is no memory the item counts as read, and the element is to be cut.
    #[inline(always)]
    pub fn read(&mut self, item: Item) -> Result<(), NoMemory>
        requires may { (part : Part) × (a : At) × (poured : List (List Value)) × IsAt R.spec R.stands part self.old a poured × MayRead part a item }
        ensures reads { IfOk result (λ _. (part : Part) (a : At) (poured : List (List Value)) → IsAt R.spec R.stands part self.old a poured
            → MayRead part a item → IsAt R.spec R.stands part self.new (takes part a (WasRead item)) poured) }
        ensures lacks { IfErr result (λ _. (part : Part) (a : At) (poured : List (List Value)) → IsAt R.spec R.stands part self.old a poured
            → IsSpent part self.new (drops a (WasRead item)) poured) }
        ensures schemas { schemas_of self.new ≡ schemas_of self.old }
    {
        self.reads = !closes(&item);
        let how = self.notes.how().behind(&item);
        let Work::Chain(chain) = &mut self.work else {
            unreachable!()
        };
        run_chain(
            self.alloc,
            chain,
            &self.fans,
            &mut self.outbox,
            &mut self.tuples,
            0,
            item,
        )?;
        self.notes.take(false, 0, chain.how(how));
        Ok(())
    }

    /// Reads a tuple of the source. Another tuple comes back in its place, to be written over.
    #[inline(always)]
    pub fn read_over(&mut self, tuple: &mut Values) -> Result<(), NoMemory>
        requires may { (part : Part) × (a : At) × (poured : List (List Value)) × IsAt R.spec R.stands part self.old a poured × MayRead part a (I.Tuple tuple.old) }
        ensures reads { IfOk result (λ _. (part : Part) (a : At) (poured : List (List Value)) → IsAt R.spec R.stands part self.old a poured
            → MayRead part a (I.Tuple tuple.old) → IsAt R.spec R.stands part self.new (takes part a (WasRead (I.Tuple tuple.old))) poured) }
        ensures lacks { IfErr result (λ _. (part : Part) (a : At) (poured : List (List Value)) → IsAt R.spec R.stands part self.old a poured
            → IsSpent part self.new (drops a (WasRead (I.Tuple tuple.old))) poured) }
        ensures schemas { schemas_of self.new ≡ schemas_of self.old }
    {
        let Work::Chain(chain) = &mut self.work else {
            unreachable!()
        };
        run_tuple(
            self.alloc,
            chain,
            &self.fans,
            &mut self.outbox,
            &mut self.tuples,
            0,
            tuple,
        )?;
        let how = chain.how(self.notes.how());
        self.notes.take(false, 0, how);
        Ok(())
    }

    /// Takes a packet from an input. Where there is no memory the packet counts as taken, and the element is to be cut.
    #[inline(always)]
    pub fn take(&mut self, input: u32, packet: Packet) -> Result<(), NoMemory>
        requires may { (part : Part) × (a : At) × (poured : List (List Value)) × IsAt R.spec R.stands part self.old a poured × MayTake (schemas_of self.old) part a input packet }
        ensures takes { IfOk result (λ _. (part : Part) (a : At) (poured : List (List Value)) → IsAt R.spec R.stands part self.old a poured
            → MayTake (schemas_of self.old) part a input packet → IsAt R.spec R.stands part self.new (takes part a (Popped input packet)) poured) }
        ensures lacks { IfErr result (λ _. (part : Part) (a : At) (poured : List (List Value)) → IsAt R.spec R.stands part self.old a poured
            → MayTake (schemas_of self.old) part a input packet → IsSpent part self.new (drops a (Popped input packet)) poured) }
        ensures schemas { schemas_of self.new ≡ schemas_of self.old }
    {
        note_taken(&mut self.inputs, input, &packet);
        if self.cut {
            return Ok(());
        }
        if let Packet::Cut = packet {
            self.cut();
            return Ok(());
        }
        let recorded = is_recorded(&self.notes, &self.work, &packet);
        self.notes.reserve(recorded)?;
        let how = work_takes(
            self.alloc,
            &mut self.work,
            &self.fans,
            &mut self.outbox,
            &mut self.tuples,
            input,
            packet,
            self.notes.how(),
        )?;
        self.notes.take(recorded, input, how);
        Ok(())
    }

    /// Takes the packet out that is to be put next, with the number of its output.
    #[inline(always)]
    pub fn put(&mut self) -> Option<(u32, Packet)>
        requires may { (part : Part) × (a : At) × (poured : List (List Value)) × IsAt R.spec R.stands part self.old a poured }
        ensures puts { (part : Part) (a : At) (poured : List (List Value)) → IsAt R.spec R.stands part self.old a poured → MatchOption result
            ((a.outbox ≡ []) × IsAt R.spec R.stands part self.new a poured)
            (λ p. WasPut part self.new a (outgoing p.0 p.1) × IsAt R.spec R.stands part self.new (puts a (outgoing p.0 p.1)) poured) }
        ensures schemas { schemas_of self.new ≡ schemas_of self.old }
    {
        if self.cut {
            return self.put_cut();
        }
        match self.outbox.take() {
            Some(waiting) => {
                let (output, packet) = (waiting.output, waiting.packet);
                self.was_ended = note_put(&mut self.outputs, output, &packet);
                self.was_sent = self.notes.put(output, &packet);
                Some((output, packet))
            }
            None => None,
        }
    }

    /// The next `Cut` of an element that is cut.
    #[cold]
    fn put_cut(&mut self) -> Option<(u32, Packet)>
        requires cut { self.old.cut ≡ true }
        requires may { (part : Part) × (a : At) × (poured : List (List Value)) × IsAt R.spec R.stands part self.old a poured }
        ensures puts { (part : Part) (a : At) (poured : List (List Value)) → IsAt R.spec R.stands part self.old a poured → MatchOption result
            ((a.outbox ≡ []) × IsAt R.spec R.stands part self.new a poured)
            (λ p. WasPut part self.new a (outgoing p.0 p.1) × IsAt R.spec R.stands part self.new (puts a (outgoing p.0 p.1)) poured) }
        ensures schemas { schemas_of self.new ≡ schemas_of self.old }
    {
        match first_open(&self.outputs) {
            Some(output) => {
                let packet = Packet::Cut;
                self.was_ended = note_put(&mut self.outputs, output, &packet);
                self.was_sent = self.notes.put(output, &packet);
                Some((output, packet))
            }
            None => None,
        }
    }

    /// Gives back the packet that `put` gave last, where nothing else was called since.
    pub fn unput(&mut self, output: u32, packet: Packet)
        requires may { (part : Part) × (a : At) × (poured : List (List Value)) × WasPut part self.old a (outgoing output packet)
            × IsAt R.spec R.stands part self.old (puts a (outgoing output packet)) poured }
        ensures unputs { (part : Part) (a : At) (poured : List (List Value)) → WasPut part self.old a (outgoing output packet)
            → IsAt R.spec R.stands part self.old (puts a (outgoing output packet)) poured → IsAt R.spec R.stands part self.new a poured }
        ensures schemas { schemas_of self.new ≡ schemas_of self.old }
    {
        set_ended(&mut self.outputs, output, self.was_ended);
        self.notes.unput(output, self.was_sent);
        if !self.cut {
            self.outbox.give_back(output, packet);
        }
    }

    /// Whether a packet is to be taken from an input: neither `Close` nor `Cut` was taken there, and a merger that isn't
    /// cut wants one on that channel.
    pub fn wants(&self, input: u32) -> bool
        requires may { (part : Part) × (a : At) × (poured : List (List Value)) × IsAt R.spec R.stands part self.now a poured × (input < inputs part) }
        ensures wants { (part : Part) (a : At) (poured : List (List Value)) → IsAt R.spec R.stands part self.now a poured → input < inputs part
            → result ≡ (not (has_last (popped input (all_taken a))) && (a.cut || wants_at part a input)) }
    {
        match self.inputs.get(input as usize) {
            Some(noted) => !noted.ended && (self.cut || work_wants(&self.work, input)),
            None => false,
        }
    }

    /// Whether a packet is proper behind those that were taken from an input.
    fn is_proper(&self, input: u32, packet: &Packet) -> bool
        ensures { (x : InputSpec) (schema : List (Named SplType)) → slice_get self.now.inputs input ≡ Some x
            → slice_get self.now.ins input ≡ Some schema → result ≡ follows schema x packet.now }
    {
        let Some(noted) = self.inputs.get(input as usize) else {
            return false;
        };
        match self.ins.get(input as usize) {
            Some(schema) => noted.is_followed_by(schema.as_slice(), packet),
            None => false,
        }
    }

    /// Whether a packet may be taken from an input: nothing is to be put, the input is wanted, and the packet is proper
    /// behind those that were taken there.
    pub fn may_take(&self, input: u32, packet: &Packet) -> bool
        requires may { (part : Part) × (a : At) × (poured : List (List Value)) × IsAt R.spec R.stands part self.now a poured × (input < inputs part) }
        ensures may { (part : Part) (a : At) (poured : List (List Value)) → IsAt R.spec R.stands part self.now a poured → input < inputs part
            → (schema : List (Named SplType)) → slice_get (schemas_of self.now) input ≡ Some schema
            → IsTrue result ↔ ComesNext schema part a input packet.now }
    {
        match self.front() {
            Some(_) => false,
            None => {
                if !self.wants(input) {
                    return false;
                }
                self.is_proper(input, packet)
            }
        }
    }

    /// The output of the packet that is to be put next.
    #[inline(always)]
    fn front(&self) -> Option<u32>
        requires may { (part : Part) × (a : At) × (poured : List (List Value)) × IsAt R.spec R.stands part self.now a poured }
        ensures { (part : Part) (a : At) (poured : List (List Value)) → IsAt R.spec R.stands part self.now a poured → MatchOption result (a.outbox ≡ [])
            (λ o. (s : OutgoingSpec) × (rest : List OutgoingSpec) × (a.outbox ≡ s ∷ rest) × (s.output ≡ o)) }
    {
        if self.cut {
            first_open(&self.outputs)
        } else {
            self.outbox.next()
        }
    }

    /// What the element does next.
    pub fn next(&self) -> Next
        requires may { (part : Part) × (a : At) × (poured : List (List Value)) × IsAt R.spec R.stands part self.now a poured }
        ensures next { (part : Part) (a : At) (poured : List (List Value)) → IsAt R.spec R.stands part self.now a poured → IsNext part a result }
    {
        match self.front() {
            Some(output) => Next::Put(output),
            None => self.next_taken(),
        }
    }

    /// Whether its source is still to be read.
    #[inline(always)]
    fn still_reads(&self) -> bool
        ensures { result ≡ (self.now.reads && not self.now.cut) }
    {
        self.reads && !self.cut
    }

    /// What it does where nothing is to be put.
    #[inline(always)]
    fn next_taken(&self) -> Next
        ensures next { (part : Part) (a : At) (poured : List (List Value)) → IsAt R.spec R.stands part self.now a poured → a.outbox ≡ [] → IsNext part a result }
    {
        if self.still_reads() {
            return Next::Read;
        }
        if all_ended(&self.inputs) {
            Next::Done
        } else {
            Next::Take
        }
    }

    /// The next tuple for the sink.
    pub fn poured(&mut self) -> Option<Values>
        requires may { (part : Part) × (a : At) × (poured : List (List Value)) × IsAt R.spec R.stands part self.old a poured }
        ensures pours { (part : Part) (a : At) (poured : List (List Value)) → IsAt R.spec R.stands part self.old a poured → MatchOption result
            ((waiting part a poured ≡ []) × IsAt R.spec R.stands part self.new a poured)
            (λ tuple. Poured part a poured tuple × IsAt R.spec R.stands part self.new a (poured ++ tuple ∷ [])) }
        ensures schemas { schemas_of self.new ≡ schemas_of self.old }
    {
        match self.tuples.next(self.alloc) {
            Some(tuple) => {
                self.notes.pour();
                Some(tuple)
            }
            None => None,
        }
    }

    /// Puts the next tuple for the sink in place of this one, whose memory is kept. `false` where none waits.
    #[inline(always)]
    pub fn poured_over(&mut self, tuple: &mut Values) -> bool
        requires may { (part : Part) × (a : At) × (poured : List (List Value)) × IsAt R.spec R.stands part self.old a poured }
        ensures pours { (part : Part) (a : At) (poured : List (List Value)) → IsAt R.spec R.stands part self.old a poured
            → result ≡ true → Poured part a poured tuple.new × IsAt R.spec R.stands part self.new a (poured ++ tuple.new ∷ []) }
        ensures ends { (part : Part) (a : At) (poured : List (List Value)) → IsAt R.spec R.stands part self.old a poured
            → result ≡ false → (waiting part a poured ≡ []) × IsAt R.spec R.stands part self.new a poured }
        ensures schemas { schemas_of self.new ≡ schemas_of self.old }
    {
        if self.tuples.next_over(tuple) {
            self.notes.pour();
            true
        } else {
            false
        }
    }

    /// Cuts the element: what waits is dropped, and `Cut` waits on each output on which neither `Close` nor `Cut` was put.
    pub fn cut(&mut self)
        ensures cuts { (part : Part) (a : At) (poured : List (List Value)) → IsSpent part self.old a poured
            → IsAt R.spec R.stands part self.new (cut_off part a) poured }
        ensures schemas { schemas_of self.new ≡ schemas_of self.old }
    {
        self.cut = true;
        self.outbox.clear();
        self.tuples.clear();
    }

    /// What the element tells: its record, how its ends ended for what it has taken, how many items were put on each output
    /// and how many tuples were handed out for its sink, and whether it was cut. It takes no memory.
    pub fn finish(self) -> Ending
        ensures arrivals { (part : Part) (a : At) (poured : List (List Value)) → IsSpent part self a poured → result.arrivals ≡ arrivals_of part a.kept }
        ensures ends { (part : Part) (a : At) (poured : List (List Value)) → IsSpent part self a poured → result.ends ≡ ends_of part a.kept }
        ensures sent { (part : Part) (a : At) (poured : List (List Value)) → IsSpent part self a poured → result.sent ≡ sent_of part a.pushed }
        ensures tuples { (part : Part) (a : At) (poured : List (List Value)) → IsSpent part self a poured → result.tuples ≡ poured_count poured }
        ensures cut { (part : Part) (a : At) (poured : List (List Value)) → IsSpent part self a poured → result.cut ≡ a.cut }
    {
        let Element {
            alloc: _,
            work: _,
            ins: _,
            inputs: _,
            reads: _,
            fans: _,
            outbox: _,
            outputs: _,
            was_ended: _,
            was_sent: _,
            tuples: _,
            notes,
            cut,
        } = self;
        notes.finish(cut)
    }
}
