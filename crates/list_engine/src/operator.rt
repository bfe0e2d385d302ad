//! One operator and the items of its inputs.
ghost use Rattle.std.specs.Prelude.{◌≡◌, ◌<◌, ◌^◌, ◌++◌, [], ◌∷◌, List, IfOk, length, reverse};
ghost use Rattle.stream_model.specs.Replies.{MayTake};
ghost use Rattle.stream_model.specs.Stream.{Event, came};
ghost use Rattle.list_engine.specs.declared.operator.Standing.TheVariants.{Live};
ghost use Rattle.list_engine.specs.steps.Taking.{Adds, noted, Task, task_of, HasGiven, Reached, MayCome, Took, AreInputs, Ran, in_turn};

use language_model::{Output, Outs};
use spl_value::{Fault, Inputs, Item, Items, NoMemory};
use stream_model::{React, Reply};

/// What an operator has given.
#[derive(Drop)]
pub(crate) struct Given {
    /// The items on each output port; on port 0 for its writer, where it has none.
    pub outs: Items<Items<Item>>,
    /// The inputs of its events, where they are recorded.
    pub inputs: Option<Inputs>,
}

/// How an operator stands after an event.
#[derive(Clone, Copy)]
pub(crate) enum Standing {
    Live,
    /// It ended: with this fault, or else with the final marker.
    Ended(Option<Fault>),
}

/// Adds an item on its port. One on a port that there isn't is dropped.
#[inline(always)]
fn add_output(output: Output, outs: &mut Items<Items<Item>>) -> Result<(), NoMemory>
    ensures { IfOk result (λ _. Adds (output ∷ []) outs.old outs.new) }
{
    let port = output.port as usize;
    if port < outs.len() {
        outs.item_mut(port).push(output.item)?;
    }
    Ok(())
}

/// Adds items, each on its port.
#[cold]
#[inline(never)]
fn add_all(outputs: Items<Output>, outs: &mut Items<Items<Item>>) -> Result<(), NoMemory>
    ensures { IfOk result (λ _. Adds outputs outs.old outs.new) }
{
    for output in outputs.into_vec() {
        add_output(output, outs)?;
    }
    Ok(())
}

/// Adds what is caused after a first item. Mostly there is nothing.
#[inline(always)]
#[tactic(auto, using(crate::proofs::Taking::adds_empty))]
fn add_rest(rest: Items<Output>, outs: &mut Items<Items<Item>>) -> Result<(), NoMemory>
    ensures { IfOk result (λ _. Adds rest outs.old outs.new) }
{
    if rest.is_empty() {
        return Ok(());
    }
    add_all(rest, outs)
}

/// Adds what an event causes, each item on its port.
#[inline(always)]
fn add_outputs(caused: Outs, outs: &mut Items<Items<Item>>) -> Result<(), NoMemory>
    ensures { IfOk result (λ _. Adds caused outs.old outs.new) }
{
    let (first, rest) = caused.into_parts();
    match first {
        None => add_rest(rest, outs),
        Some(output) => {
            add_output(output, outs)?;
            add_rest(rest, outs)
        }
    }
}

/// Records the input of an event, where that is wanted.
#[inline(always)]
fn note(inputs: &mut Option<Inputs>, input: u32) -> Result<(), NoMemory>
    ensures { IfOk result (λ _. inputs.new ≡ noted input inputs.old) }
{
    if let Some(inputs) = inputs {
        inputs.push(input)?;
    }
    Ok(())
}

/// Lets an operator take an item, and keeps what it gives.
#[inline(always)]
pub(crate) fn step<R: React>(
    operator: &mut R,
    input: u32,
    item: Item,
    given: &mut Given,
) -> Result<Standing, NoMemory>
    requires may { (task : Task) × (done : List Event) × Reached R.spec R.stands task done operator.old given.old Live
        × MayTake task.op (reverse done) (came input item) }
    ensures { IfOk result (λ standing. (task : Task) (done : List Event) → Reached R.spec R.stands task done operator.old given.old Live
        → MayTake task.op (reverse done) (came input item)
        → Reached R.spec R.stands task (done ++ came input item ∷ []) operator.new given.new standing) }
{
    note(&mut given.inputs, input)?;
    match operator.on_item(input, item) {
        Reply::Out(caused) => {
            add_outputs(caused, &mut given.outs)?;
            Ok(Standing::Live)
        }
        Reply::Ended(caused, fault) => {
            add_outputs(caused, &mut given.outs)?;
            Ok(Standing::Ended(fault))
        }
        Reply::Memory => Err(NoMemory),
    }
}

/// Lets an operator take the items that are left of an input, up to its end.
fn take_input<R: React>(
    operator: &mut R,
    input: u32,
    items: Items<Item>,
    given: &mut Given,
) -> Result<Standing, NoMemory>
    requires may { (task : Task) × (done : List Event) × Reached R.spec R.stands task done operator.old given.old Live
        × MayCome task.op done input items }
    ensures { IfOk result (λ standing. (task : Task) (done : List Event) → Reached R.spec R.stands task done operator.old given.old Live
        → MayCome task.op done input items → Took R.spec R.stands task done input items operator.new given.new standing) }
{
    for item in items.into_vec() {
        if let Standing::Ended(fault) = step(operator, input, item, given)? {
            return Ok(Standing::Ended(fault));
        }
    }
    Ok(Standing::Live)
}

/// Lets an operator take all items of its first input, then all of the next, and so on, up to its end.
/// The fault with which it ended.
pub(crate) fn take_in_turn<R: React>(
    operator: &mut R,
    lists: Items<Items<Item>>,
    given: &mut Given,
) -> Result<Option<Fault>, NoMemory>
    requires fresh { R.stands operator.old [] }
    requires none_given { HasGiven (task_of (R.spec operator.old) given.old) [] given.old }
    requires fit { AreInputs (R.spec operator.old) lists }
    requires few { length lists < 2 ^ 30 }
    ensures { IfOk result (λ fault. Ran (task_of (R.spec operator.old) given.old) (in_turn 0 lists) given.new fault) }
{
    let mut input = 0;
    for items in lists.into_vec() {
        if let Standing::Ended(fault) = take_input(operator, input, items, given)? {
            return Ok(fault);
        }
        input += 1;
    }
    unreachable!()
}
