//! What a node asks of its element.
ghost use Rattle.std.specs.Prelude.{◌≡◌, ◌<◌, ◌++◌, ◌∷◌, [], ℕ, Bool, true, false, List, IfOk, IfErr, IsSome, MatchOption, not, ◌&&◌, ◌||◌};
ghost use Rattle.spl_value.specs.declared.item.Item.TheVariants as I;
ghost use Rattle.spl_value.specs.declared.packet.Packet.{Packet};
ghost use Rattle.stream_model.specs.declared.outgoing.Outgoing.{Outgoing};
ghost use Rattle.stream_model.specs.Sending.{outgoing};
ghost use Rattle.network_model.specs.Legal.{wants_at};
ghost use Rattle.network_model.specs.Networks.{Part, inputs, outputs};
ghost use Rattle.network_model.specs.Packets.{has_last};
ghost use Rattle.network_model.specs.Receipts.{Popped, WasRead, popped};
ghost use Rattle.network_model.specs.States.{At, all_taken, cut_off, drops, puts, takes as takes_at};
ghost use Rattle.node_turns.specs.Calls.{Goes, IsFew, IsNext, IsOrderly, IsSomewhere, SourceHas, StillReads, Tuples};
ghost use Rattle.node_turns.specs.declared.next.Next.TheVariants as N;

use crate::next::Next;
use spl_value::{Item, NoMemory, Packet, Values};

/// An element of a network as its node sees it. It stands for states: what it has taken, put and poured.
pub trait Machine: Drop {
    /// That it runs this part, is in this state and has poured these tuples. While what a merger has taken isn't in order,
    /// nothing ties what waits in it to the outbox of the state.
    ghost stands: { Self → Part → At → Tuples → Type 0 };

    /// The same, but for what waits in it: it found no memory, and is to be cut.
    ghost spent: { Self → Part → At → Tuples → Type 0 };

    /// That it put this packet last, out of this state.
    ghost lent: { Self → Part → At → Outgoing → Type 0 };

    /// Which inputs it wants.
    ghost wanted: { Self → ℕ → Bool };

    /// Which packets it may take.
    ghost takes: { Self → ℕ → Packet → Bool };

    /// Whether no packet waits to be put.
    ghost idle: { Self → Bool };

    /// How many tuples wait for the sink.
    ghost waiting: { Self → ℕ };

    fn next(&self) -> Next
        requires { IsSomewhere stands self.now }
        ensures next { (part : Part) (a : At) (poured : Tuples) → stands self.now part a poured → IsNext part a result }
        ensures waits { (output : ℕ) → result ≡ N.Put output → idle self.now ≡ false };

    fn wants(&self, input: u32) -> bool
        requires { (part : Part) × (a : At) × (poured : Tuples) × stands self.now part a poured × (input < inputs part) }
        ensures wanted { result ≡ wanted self.now input }
        ensures wants { (part : Part) (a : At) (poured : Tuples) → stands self.now part a poured → input < inputs part → IsOrderly part a
            → result ≡ (not (has_last (popped input (all_taken a))) && (a.cut || wants_at part a input)) };

    fn may_take(&self, input: u32, packet: &Packet) -> bool
        requires { (part : Part) × (a : At) × (poured : Tuples) × stands self.now part a poured × (input < inputs part) }
        ensures { result ≡ takes self.now input packet.now };

    fn read(&mut self, item: Item) -> Result<(), NoMemory>
        requires { (part : Part) × (a : At) × (poured : Tuples) × stands self.old part a poured × StillReads part a × SourceHas part item }
        ensures reads { IfOk result (λ _. Goes stands stands self.old self.new (λ part a. takes_at part a (WasRead item))) }
        ensures lacks { IfErr result (λ _. Goes stands spent self.old self.new (λ part a. drops a (WasRead item))) };

    fn read_over(&mut self, tuple: &mut Values) -> Result<(), NoMemory>
        requires { (part : Part) × (a : At) × (poured : Tuples) × stands self.old part a poured × StillReads part a
            × SourceHas part (I.Tuple tuple.old) }
        ensures reads { IfOk result (λ _. Goes stands stands self.old self.new (λ part a. takes_at part a (WasRead (I.Tuple tuple.old)))) }
        ensures lacks { IfErr result (λ _. Goes stands spent self.old self.new (λ part a. drops a (WasRead (I.Tuple tuple.old)))) };

    fn take(&mut self, input: u32, packet: Packet) -> Result<(), NoMemory>
        requires takes { takes self.old input packet ≡ true }
        requires may { (part : Part) × (a : At) × (poured : Tuples) × stands self.old part a poured × (input < inputs part) × IsFew a input }
        ensures takes { IfOk result (λ _. (part : Part) (a : At) (poured : Tuples) → stands self.old part a poured → IsFew a input
            → stands self.new part (takes_at part a (Popped input packet)) poured) }
        ensures lacks { IfErr result (λ _. (part : Part) (a : At) (poured : Tuples) → stands self.old part a poured → IsFew a input
            → spent self.new part (drops a (Popped input packet)) poured) };

    fn put(&mut self) -> Option<(u32, Packet)>
        requires { IsSomewhere stands self.old }
        ensures some { idle self.old ≡ false → IsSome result }
        ensures puts { (part : Part) (a : At) (poured : Tuples) → stands self.old part a poured → MatchOption result
            (stands self.new part a poured)
            (λ p. (p.0 < outputs part) × lent self.new part a (outgoing p.0 p.1) × stands self.new part (puts a (outgoing p.0 p.1)) poured) };

    fn unput(&mut self, output: u32, packet: Packet)
        requires { (part : Part) × (a : At) × (poured : Tuples) × lent self.old part a (outgoing output packet)
            × stands self.old part (puts a (outgoing output packet)) poured }
        ensures { (part : Part) (a : At) (poured : Tuples) → lent self.old part a (outgoing output packet)
            → stands self.old part (puts a (outgoing output packet)) poured → stands self.new part a poured };

    fn poured_over(&mut self, tuple: &mut Values) -> bool
        requires { IsSomewhere stands self.old }
        ensures pours { result ≡ true → (part : Part) (a : At) (poured : Tuples) → stands self.old part a poured
            → stands self.new part a (poured ++ tuple.new ∷ []) }
        ensures ends { result ≡ false → (part : Part) (a : At) (poured : Tuples) → stands self.old part a poured → stands self.new part a poured }
        ensures fewer { result ≡ true → waiting self.new < waiting self.old };

    fn cut(&mut self)
        ensures cuts { Goes spent stands self.old self.new cut_off }
        ensures stops { Goes stands stands self.old self.new cut_off }
        ensures none { waiting self.new ≡ 0 };
}
