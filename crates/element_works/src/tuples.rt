//! Tuples on their way along a chain, and those that wait for its sink.
ghost use Rattle.std.specs.Prelude.{◌≡◌, ◌<◌, ◌++◌, ◌∷◌, [], true, false, IfOk, IsTrue, IsFalse, MatchOption, None, length};
ghost use Rattle.operator_chains.specs.Places.{IsBelow, given_by, tuple_at};
ghost use Rattle.element_works.specs.Tuples.{HasTaken, IsKept, for_writer, room_of, sink_waits};

use language_model::{Output, Outs};
use operator_chains::Given;
use spl_value::{Item, Items, NoMemory, Values};
use std::alloc::Global;
use std::collections::VecDeque;
use std::mem::{replace, swap};

/// The places of a chain, where its tuples stand, and the tuples that wait for its sink. The room of both is used again.
#[derive(Drop)]
pub struct Tuples {
    pub(crate) places: Vec<Values>,
    pub(crate) outs: Outs,
    /// The place of the first tuple that waits, where that one hasn't been moved.
    pub(crate) ready: Option<usize>,
    pub(crate) waiting: VecDeque<Values>,
}

/// So many places without a tuple.
fn empty_places(alloc: Global, count: usize) -> Result<Vec<Values>, NoMemory>
    ensures { IfOk result (λ places. length places.items ≡ count) }
{
    let mut places = Vec::with_capacity(alloc, count)?;
    for _ in 0..count {
        places.push(Values::new(alloc))?;
    }
    Ok(places)
}

impl Tuples {
    /// So many places, and no tuple.
    pub fn new(alloc: Global, places: usize) -> Result<Tuples, NoMemory>
        ensures none { IfOk result (λ t. sink_waits t ≡ []) }
        ensures kept { IfOk result (λ t. IsKept t) }
        ensures room { IfOk result (λ t. room_of t ≡ places) }
    {
        Ok(Tuples {
            places: empty_places(alloc, places)?,
            outs: Outs::new(alloc),
            ready: None,
            waiting: VecDeque::new(alloc),
        })
    }

    /// The next tuple for the sink.
    pub fn next(&mut self, alloc: Global) -> Option<Values>
        requires kept { IsKept self.old }
        ensures next { MatchOption result ((sink_waits self.old ≡ []) × (sink_waits self.new ≡ [])) (λ vs. sink_waits self.old ≡ vs ∷ sink_waits self.new) }
        ensures kept { IsKept self.new }
        ensures room { room_of self.new ≡ room_of self.old }
    {
        if let Some(at) = self.ready {
            self.ready = None;
            return Some(replace(&mut self.places[at], Values::new(alloc)));
        }
        self.waiting.pop_front()
    }

    /// Puts the next tuple for the sink in place of this one, whose memory is kept; `false` where none waits.
    #[inline(always)]
    pub fn next_over(&mut self, tuple: &mut Values) -> bool
        requires kept { IsKept self.old }
        ensures next { HasTaken result tuple.new (sink_waits self.old) (sink_waits self.new) }
        ensures kept { IsKept self.new }
        ensures room { room_of self.new ≡ room_of self.old }
    {
        if let Some(at) = self.ready {
            self.ready = None;
            swap(&mut self.places[at], tuple);
            return true;
        }
        match self.waiting.pop_front() {
            Some(next) => {
                *tuple = next;
                true
            }
            None => false,
        }
    }

    /// Moves the tuple that waits at a place to the others, so that the place may be written over.
    #[inline(always)]
    pub(crate) fn free_places(&mut self, alloc: Global) -> Result<(), NoMemory>
        requires kept { IsKept self.old }
        ensures same { IfOk result (λ _. sink_waits self.new ≡ sink_waits self.old) }
        ensures free { IfOk result (λ _. self.new.ready ≡ None) }
        ensures room { room_of self.new ≡ room_of self.old }
    {
        if self.ready.is_none() {
            return Ok(());
        }
        self.move_ready(alloc)
    }

    #[cold]
    #[inline(never)]
    fn move_ready(&mut self, alloc: Global) -> Result<(), NoMemory>
        requires kept { IsKept self.old }
        ensures same { IfOk result (λ _. sink_waits self.new ≡ sink_waits self.old) }
        ensures free { IfOk result (λ _. self.new.ready ≡ None) }
        ensures room { room_of self.new ≡ room_of self.old }
    {
        let Some(at) = self.ready else {
            return Ok(());
        };
        self.ready = None;
        let tuple = replace(&mut self.places[at], Values::new(alloc));
        self.waiting.push_front(tuple)?;
        Ok(())
    }

    /// Puts a tuple at the first place, and what stood there in its place.
    #[inline(always)]
    pub(crate) fn enter(&mut self, tuple: &mut Values)
        requires room { 0 < room_of self.old }
        ensures first { tuple_at self.new.places.items 0 ≡ tuple.old }
        ensures room { room_of self.new ≡ room_of self.old }
        ensures ready { self.new.ready ≡ self.old.ready }
        ensures waiting { self.new.waiting.items ≡ self.old.waiting.items }
    {
        swap(&mut self.places[0], tuple);
    }

    /// Keeps what the sink gave its writer.
    #[inline(always)]
    pub(crate) fn pour_given(&mut self, alloc: Global, given: Given) -> Result<(), NoMemory>
        requires below { IsBelow (room_of self.old) given }
        requires free { self.old.ready ≡ None }
        ensures pours { IfOk result (λ _. sink_waits self.new ≡ sink_waits self.old ++ for_writer (given_by given self.old.places.items self.old.outs)) }
        ensures kept { IsKept self.new }
        ensures room { room_of self.new ≡ room_of self.old }
    {
        match given {
            Given::Tuple(at) => {
                if self.waiting.is_empty() {
                    self.ready = Some(at);
                    return Ok(());
                }
                let tuple = replace(&mut self.places[at], Values::new(alloc));
                self.waiting.push_back(tuple)?;
                Ok(())
            }
            Given::Nothing => Ok(()),
            Given::Outs => {
                let outs = replace(&mut self.outs, Outs::new(alloc));
                self.pour(outs)
            }
        }
    }

    /// Keeps a tuple that the sink gave its writer.
    #[inline(always)]
    fn pour_one(&mut self, output: Output) -> Result<(), NoMemory>
        ensures pours { IfOk result (λ _. sink_waits self.new ≡ sink_waits self.old ++ for_writer (output ∷ [])) }
        ensures places { self.new.places ≡ self.old.places }
        ensures ready { self.new.ready ≡ self.old.ready }
    {
        if output.port != 0 {
            return Ok(());
        }
        if let Item::Tuple(values) = output.item {
            self.waiting.push_back(values)?;
        }
        Ok(())
    }

    #[cold]
    #[inline(never)]
    fn pour_rest(&mut self, rest: Items<Output>) -> Result<(), NoMemory>
        ensures pours { IfOk result (λ _. sink_waits self.new ≡ sink_waits self.old ++ for_writer rest) }
        ensures places { self.new.places ≡ self.old.places }
        ensures ready { self.new.ready ≡ self.old.ready }
    {
        for output in rest.into_vec() {
            self.pour_one(output)?;
        }
        Ok(())
    }

    /// Keeps the tuples that the sink gave its writer.
    pub(crate) fn pour(&mut self, outs: Outs) -> Result<(), NoMemory>
        ensures pours { IfOk result (λ _. sink_waits self.new ≡ sink_waits self.old ++ for_writer outs) }
        ensures places { self.new.places ≡ self.old.places }
        ensures ready { self.new.ready ≡ self.old.ready }
    {
        let (first, rest) = outs.into_parts();
        let Some(output) = first else {
            return Ok(());
        };
        self.pour_one(output)?;
        if rest.is_empty() {
            return Ok(());
        }
        self.pour_rest(rest)
    }

    /// Drops the tuples that wait.
    pub fn clear(&mut self)
        ensures none { sink_waits self.new ≡ [] }
        ensures kept { IsKept self.new }
        ensures room { room_of self.new ≡ room_of self.old }
    {
        self.ready = None;
        self.waiting.clear();
    }
}
