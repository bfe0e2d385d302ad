//! One operator, its items taken as a record says.
ghost use Rattle.std.specs.Prelude.{◌≡◌, ◌<◌, ◌^◌, [], IfOk, IfErr, MatchOption, length, map, reverse, false};
ghost use Rattle.stream_model.specs.Arrivals.{entries_in};
ghost use Rattle.stream_model.specs.Operators.{Operator};
ghost use Rattle.stream_model.specs.Records.{is_whole};
ghost use Rattle.stream_model.specs.Runs.{rows_at};
ghost use Rattle.list_engine.specs.steps.Taking.{AreInputs, HasGiven, task_of};
ghost use Rattle.list_engine.specs.steps.Replaying.{FailsOn, RanIn, Replayed, Stops, TakesLast};

use crate::operator::{Given, Standing, step, take_in_turn};
use crate::run_order::{Order, RunAnswer};
use spl_value::{Fault, Item, Items, NoMemory};
use std::alloc::Global;
use stream_model::{Arrivals, React};

/// A list in reverse.
fn reversed(items: Items<Item>) -> Items<Item>
    ensures { result ≡ reverse items }
{
    let mut items = items.into_vec();
    items.reverse();
    Items::from_vec(items)
}

/// Lists of which each is in reverse, so that its first item can be taken from its end.
fn all_reversed(alloc: Global, lists: Items<Items<Item>>) -> Result<Items<Items<Item>>, NoMemory>
    ensures { IfOk result (λ turned. turned ≡ map reverse lists) }
{
    let mut turned = Items::with_capacity(alloc, lists.len())?;
    for items in lists.into_vec() {
        turned.push(reversed(items))?;
    }
    Ok(turned)
}

/// Takes the last item of the list of an input. There is none where the list is used up, or no such input.
fn take_last(lists: &mut Items<Items<Item>>, input: u32) -> Option<Item>
    ensures { MatchOption result (rows_at lists.old input ≡ []) (λ item. TakesLast input item lists.old lists.new) }
{
    let at = input as usize;
    if at < lists.len() {
        lists.item_mut(at).pop()
    } else {
        None
    }
}

/// The entries that a record has for the operator with this number; none where it has no list for it.
fn entries_of(arrivals: &Arrivals, number: u32) -> &[u32]
    ensures { result.now ≡ entries_in arrivals.now.lists number }
{
    for list in arrivals.lists.as_slice() {
        if list.op == number {
            return list.inputs.as_slice();
        }
    }
    &[]
}

/// Lets an operator take the items that the entries of its record name, each the next one of its input. The
/// fault with which it ended, where it ended at the last entry.
fn take_recorded<R: React>(
    alloc: Global,
    number: u32,
    entries: &[u32],
    operator: &mut R,
    lists: Items<Items<Item>>,
    given: &mut Given,
) -> Result<Option<Fault>, RunAnswer>
    requires fresh { R.stands operator.old [] }
    requires none_given { HasGiven (task_of (R.spec operator.old) given.old) [] given.old }
    requires fit { AreInputs (R.spec operator.old) lists }
    ensures replayed { IfOk result (λ fault. Replayed (task_of (R.spec operator.old) given.old) (rows_at lists) entries.now given.new fault) }
    ensures stops { IfErr result (Stops number (is_whole (R.spec operator.old) (rows_at lists) entries.now ≡ false)) }
{
    let mut left = all_reversed(alloc, lists)?;
    let mut rest = entries;
    'entries: while let [input, behind @ ..] = rest {
        let Some(item) = take_last(&mut left, *input) else {
            return Err(RunAnswer::NotWhole(number));
        };
        if let Standing::Ended(fault) = step(operator, *input, item, given)? {
            if behind.is_empty() {
                return Ok(fault);
            }
            return Err(RunAnswer::NotWhole(number));
        }
        rest = behind;
    }
    Err(RunAnswer::NotWhole(number))
}

/// Lets an operator take the items of its inputs in this order. The fault with which it ended.
pub(crate) fn take_items<R: React>(
    alloc: Global,
    order: &Order,
    number: u32,
    operator: &mut R,
    lists: Items<Items<Item>>,
    given: &mut Given,
) -> Result<Option<Fault>, RunAnswer>
    requires number { (R.spec operator.old).number ≡ number }
    requires fresh { R.stands operator.old [] }
    requires none_given { HasGiven (task_of (R.spec operator.old) given.old) [] given.old }
    requires fit { AreInputs (R.spec operator.old) lists }
    requires few { length lists < 2 ^ 30 }
    ensures ran { IfOk result (λ fault. RanIn order.now (task_of (R.spec operator.old) given.old) lists given.new fault) }
    ensures stops { IfErr result (Stops number (FailsOn order.now (R.spec operator.old) lists)) }
{
    if let Order::Recorded(arrivals) = order {
        if lists.len() > 1 {
            let entries = entries_of(arrivals, number);
            return take_recorded(alloc, number, entries, operator, lists, given);
        }
    }
    let fault = take_in_turn(operator, lists, given)?;
    Ok(fault)
}
