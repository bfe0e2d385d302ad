//! The steps of a node.
ghost use Rattle.std.specs.Prelude.{◌≡◌, ◌<◌, ◌≤◌, ◌++◌, ◌∷◌, [], ℕ, Option, None, Some, false, true, length, IsSome};
ghost use Rattle.spl_value.specs.declared.item.Item.TheVariants as I;
ghost use Rattle.network_model.specs.Networks.{Part, inputs};
ghost use Rattle.network_model.specs.Receipts.{Popped, WasRead};
ghost use Rattle.network_model.specs.States.{At, cut_off};
ghost use Rattle.node_turns.specs.Calls.{Goes, IsFew, SourceHas, StillReads, Tuples};
ghost use Rattle.node_turns.specs.Idling.{IsStill, WasFull, WasIdle};
ghost use Rattle.node_turns.specs.Meets.{HasRun, NodeMeets, Runs, StillReading, Writes};
ghost use Rattle.node_turns.specs.Notes.{worse as worse_as};
ghost use Rattle.node_turns.specs.Taking.{HasKept, HasTaken, TakesFew};
ghost use Rattle.group_drive.specs.declared.turns.Turn.TheVariants.{Done, Idle};

use crate::machine::Machine;
use crate::next::Next;
use crate::node::Node;
use crate::note::{Note, worse};
use crate::outside::{Sink, Source};
use feed_pour::PourAnswer;
use group_drive::{Links, Tells, Turn};
use ordered_link::Put;
use spl_value::{Item, Packet, Values};
use std::sync::Wait;

/// Cuts an element, and notes why.
#[cold]
fn stop<E: Machine>(element: &mut E, note: &mut Note, why: Note)
    ensures spent { Goes E.spent E.stands element.old element.new (λ part a. cut_off part a) }
    ensures stood { Goes E.stands E.stands element.old element.new (λ part a. cut_off part a) }
    ensures none { E.waiting element.new ≡ 0 }
    ensures note { note.new ≡ worse_as note.old why }
{
    element.cut();
    *note = worse(*note, why);
}

fn outcome(moved: bool) -> Turn
    ensures open { result ≡ Done → ⊥ }
    ensures idle { result ≡ Idle → moved ≡ false }
{
    if moved { Turn::Moved } else { Turn::Idle }
}

/// Lets an element read an item. Where there is no memory, it is cut.
fn read_item<E: Machine>(element: &mut E, note: &mut Note, item: Item)
    requires { (part : Part) × (a : At) × (poured : Tuples) × E.stands element.old part a poured × StillReads part a × SourceHas part item }
    ensures { HasTaken E.stands element.old element.new note.old note.new (WasRead item) }
{
    match element.read(item) {
        Ok(()) => (),
        Err(_) => stop(element, note, Note::Memory),
    }
}

/// Lets an element read a tuple where it stands. Where there is no memory, it is cut.
#[inline(always)]
fn read_tuple<E: Machine>(element: &mut E, note: &mut Note, tuple: &mut Values)
    requires { (part : Part) × (a : At) × (poured : Tuples) × E.stands element.old part a poured × StillReads part a
        × SourceHas part (I.Tuple tuple.old) }
    ensures { HasTaken E.stands element.old element.new note.old note.new (WasRead (I.Tuple tuple.old)) }
{
    match element.read_over(tuple) {
        Ok(()) => (),
        Err(_) => stop(element, note, Note::Memory),
    }
}

/// Lets an element take a packet that it may take. Where there is no memory, it is cut.
#[inline(always)]
fn take_packet<E: Machine>(element: &mut E, note: &mut Note, input: u32, packet: Packet)
    requires takes { E.takes element.old input packet ≡ true }
    requires may { (part : Part) × (a : At) × (poured : Tuples) × E.stands element.old part a poured × (input < inputs part) × IsFew a input }
    ensures { TakesFew E.stands element.old element.new note.old note.new input packet }
{
    match element.take(input, packet) {
        Ok(()) => (),
        Err(_) => stop(element, note, Note::Memory),
    }
}

/// Writes a tuple, unless something went wrong before. Where there is no memory, the element is cut.
#[inline(always)]
fn write<E: Machine, K: Sink>(
    element: &mut E,
    sink: &mut Option<K>,
    note: &mut Note,
    tuple: &Values,
)
    ensures writes { (clean : Option K) (poured : Tuples) → Writes K.took K.began K.faults note.old poured clean sink.old
        → Writes K.took K.began K.faults note.new (poured ++ tuple.now ∷ []) clean sink.new }
    ensures kept { HasKept E.stands element.old element.new note.old note.new }
    ensures waiting { E.waiting element.new ≤ E.waiting element.old }
{
    let Some(writer) = sink else {
        return;
    };
    if !note.is_nothing() {
        return;
    }
    match writer.put(tuple) {
        Ok(()) => (),
        Err(PourAnswer::Failed) => *note = Note::Write,
        Err(PourAnswer::Memory) => stop(element, note, Note::Memory),
    }
}

impl<E: Machine, S: Source, K: Sink> Node<E, S, K> {
    /// Puts the packet that waits on its link, or gives it back.
    pub(crate) fn push<W: Wait, T: Tells>(&mut self, rt: &W, links: &Links, gate: &T) -> bool
        requires waits { E.idle self.old.element ≡ false }
        requires runs { (part : Part) × Runs E.stands S.gave S.front S.over K.took K.began K.faults part links.now.items self.old }
        ensures number { self.new.number ≡ self.old.number }
        ensures runs { (part : Part) → Runs E.stands S.gave S.front S.over K.took K.began K.faults part links.now.items self.old
            → Runs E.stands S.gave S.front S.over K.took K.began K.faults part links.now.items self.new }
        ensures still { result ≡ false → IsStill self.old self.new }
        ensures full { result ≡ false → WasFull links.now.items self.old }
    {
        let Some((output, packet)) = self.element.put() else {
            unreachable!();
        };
        gate.tell_put(self.number, self.puts);
        let outlet = &mut self.outs[output as usize];
        let link = outlet.link;
        match links[link as usize].try_put(rt, &mut outlet.pass, packet) {
            Ok(()) => {
                self.puts = self.puts.saturating_add(1);
                true
            }
            Err(Put::Full(back)) => {
                self.element.unput(output, back);
                false
            }
            Err(Put::Worn(back)) => {
                self.element.unput(output, back);
                stop(&mut self.element, &mut self.note, Note::Worn(link));
                true
            }
        }
    }

    /// Reads the next item of the source.
    pub(crate) fn read(&mut self)
        requires runs { (part : Part) × StillReading E.stands S.gave S.front S.over K.took K.began K.faults part self.old }
        ensures number { self.new.number ≡ self.old.number }
        ensures ends { (self.new.ins ≡ self.old.ins) × (self.new.outs ≡ self.old.outs) }
        ensures meets { (part : Part) → StillReading E.stands S.gave S.front S.over K.took K.began K.faults part self.old
            → NodeMeets E.stands S.gave S.front S.over K.took K.began K.faults part self.new }
    {
        let Some(source) = &mut self.source else {
            unreachable!();
        };
        match source.next() {
            Ok(Item::Tuple(tuple)) => {
                let mut tuple = tuple;
                read_tuple(&mut self.element, &mut self.note, &mut tuple);
                source.give_back(tuple);
            }
            Ok(item) => read_item(&mut self.element, &mut self.note, item),
            Err(_) => stop(&mut self.element, &mut self.note, Note::Memory),
        }
    }

    /// Takes a packet from an input, where the element wants one and there is one. One that isn't proper is dropped, and
    /// the element is cut.
    fn pull_at<W: Wait>(&mut self, rt: &W, links: &Links, at: usize) -> bool
        requires input { at < length self.old.ins.items }
        requires runs { (part : Part) × Runs E.stands S.gave S.front S.over K.took K.began K.faults part links.now.items self.old }
        ensures number { self.new.number ≡ self.old.number }
        ensures count { length self.new.ins.items ≡ length self.old.ins.items }
        ensures runs { (part : Part) → Runs E.stands S.gave S.front S.over K.took K.began K.faults part links.now.items self.old
            → Runs E.stands S.gave S.front S.over K.took K.began K.faults part links.now.items self.new }
        ensures still { result ≡ false → IsStill self.old self.new }
    {
        let input = at as u32;
        if !self.element.wants(input) {
            return false;
        }
        let inlet = &mut self.ins[at];
        let packet = match links[inlet.link as usize].try_take(rt, &mut inlet.pass) {
            Some(packet) => packet,
            None => return false,
        };
        if self.element.may_take(input, &packet) {
            take_packet(&mut self.element, &mut self.note, input, packet);
            return true;
        }
        stop(&mut self.element, &mut self.note, Note::Improper);
        true
    }

    /// Takes a packet from the next input that is wanted and has one, from where the last round stopped.
    pub(crate) fn pull<W: Wait>(&mut self, rt: &W, links: &Links) -> bool
        requires runs { (part : Part) × Runs E.stands S.gave S.front S.over K.took K.began K.faults part links.now.items self.old }
        ensures number { self.new.number ≡ self.old.number }
        ensures runs { (part : Part) → Runs E.stands S.gave S.front S.over K.took K.began K.faults part links.now.items self.old
            → Runs E.stands S.gave S.front S.over K.took K.began K.faults part links.now.items self.new }
        ensures still { result ≡ false → IsStill self.old self.new }
    {
        let inputs = self.ins.len();
        'inputs: for _ in 0..inputs {
            let input = if self.at < inputs { self.at } else { 0 };
            self.at = input + 1;
            if self.pull_at(rt, links, input) {
                return true;
            }
        }
        false
    }

    /// Writes the next tuple that waits for the sink. `false` where none waits.
    #[inline(always)]
    fn pour_one(&mut self) -> bool
        requires meets { (part : Part) × NodeMeets E.stands S.gave S.front S.over K.took K.began K.faults part self.old }
        ensures number { self.new.number ≡ self.old.number }
        ensures ends { (self.new.ins ≡ self.old.ins) × (self.new.outs ≡ self.old.outs) }
        ensures meets { (part : Part) → NodeMeets E.stands S.gave S.front S.over K.took K.began K.faults part self.old
            → NodeMeets E.stands S.gave S.front S.over K.took K.began K.faults part self.new }
        ensures fewer { result ≡ true → E.waiting self.new.element < E.waiting self.old.element }
    {
        if !self.element.poured_over(&mut self.tuple) {
            return false;
        }
        write(
            &mut self.element,
            &mut self.sink,
            &mut self.note,
            &self.tuple,
        );
        true
    }

    /// Writes the tuples that wait for the sink.
    pub(crate) fn pour(&mut self)
        requires meets { (part : Part) × NodeMeets E.stands S.gave S.front S.over K.took K.began K.faults part self.old }
        ensures number { self.new.number ≡ self.old.number }
        ensures ends { (self.new.ins ≡ self.old.ins) × (self.new.outs ≡ self.old.outs) }
        ensures meets { (part : Part) → NodeMeets E.stands S.gave S.front S.over K.took K.began K.faults part self.old
            → NodeMeets E.stands S.gave S.front S.over K.took K.began K.faults part self.new }
    {
        'tuples: while self.pour_one() {}
    }

    /// Puts, reads or takes one thing, where it can.
    pub(crate) fn step<W: Wait, T: Tells>(&mut self, rt: &W, links: &Links, gate: &T) -> Turn
        requires runs { (part : Part) × Runs E.stands S.gave S.front S.over K.took K.began K.faults part links.now.items self.old }
        ensures number { self.new.number ≡ self.old.number }
        ensures runs { (part : Part) → Runs E.stands S.gave S.front S.over K.took K.began K.faults part links.now.items self.old
            → Runs E.stands S.gave S.front S.over K.took K.began K.faults part links.now.items self.new }
        ensures done { result ≡ Done → (part : Part) → Runs E.stands S.gave S.front S.over K.took K.began K.faults part links.now.items self.old
            → HasRun E.stands S.gave S.front S.over K.took K.began K.faults part links.now.items self.new }
        ensures idle { result ≡ Idle
            → WasIdle E.stands S.gave S.front S.over K.took K.began K.faults links.now.items self.old self.new }
    {
        match self.element.next() {
            Next::Put(_) => outcome(self.push(rt, links, gate)),
            Next::Read => {
                self.read();
                self.pour();
                Turn::Moved
            }
            Next::Take => {
                if !self.pull(rt, links) {
                    return Turn::Idle;
                }
                self.pour();
                Turn::Moved
            }
            Next::Done => Turn::Done,
        }
    }
}
