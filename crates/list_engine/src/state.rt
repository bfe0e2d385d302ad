//! The state of a run, from one operator to the next.
ghost use Rattle.std.specs.Prelude.{◌≡◌, [], None, IfOk, replicate};

use spl_value::{Fault, Inputs, Item, Items, NoMemory};
use std::alloc::Global;

/// The state of a run so far.
#[derive(Drop)]
pub(crate) struct State {
    /// The streams that are made, by their numbers; one that nothing reads any more is empty.
    pub streams: Items<Items<Item>>,
    /// The rows of the sources that are still to be run, by their operators' numbers.
    pub rows: Items<Items<Item>>,
    /// What each operator without output ports gave its writer, by its number.
    pub sinks: Items<Items<Item>>,
    /// The fault with which each of them ended.
    pub faults: Items<Option<Fault>>,
    /// The inputs of the events of each operator with several connections.
    pub inputs: Items<Option<Inputs>>,
}

/// `count` empty lists.
pub(crate) fn empty_lists(alloc: Global, count: usize) -> Result<Items<Items<Item>>, NoMemory>
    ensures { IfOk result (λ lists. lists ≡ replicate count []) }
{
    let mut lists = Items::with_capacity(alloc, count)?;
    'lists: for _ in 0..count {
        lists.push(Items::new(alloc))?;
    }
    Ok(lists)
}

/// `count` places with nothing.
pub(crate) fn nothing<T: Drop>(alloc: Global, count: usize) -> Result<Items<Option<T>>, NoMemory>
    ensures { IfOk result (λ places. places ≡ replicate count None) }
{
    let mut places = Items::with_capacity(alloc, count)?;
    'places: for _ in 0..count {
        places.push(None)?;
    }
    Ok(places)
}

impl State {
    /// Before the first operator, with the numbers of operators and of the streams that they make.
    pub(crate) fn new(
        alloc: Global,
        operators: usize,
        streams: usize,
        rows: Items<Items<Item>>,
    ) -> Result<State, NoMemory>
        ensures streams { IfOk result (λ state. state.streams ≡ replicate streams []) }
        ensures rows { IfOk result (λ state. state.rows ≡ rows) }
        ensures sinks { IfOk result (λ state. state.sinks ≡ replicate operators []) }
        ensures faults { IfOk result (λ state. state.faults ≡ replicate operators None) }
        ensures inputs { IfOk result (λ state. state.inputs ≡ replicate operators None) }
    {
        Ok(State {
            streams: empty_lists(alloc, streams)?,
            rows,
            sinks: empty_lists(alloc, operators)?,
            faults: nothing(alloc, operators)?,
            inputs: nothing(alloc, operators)?,
        })
    }
}
