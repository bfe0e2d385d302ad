//! Who reaches itself among callers that are numbers.
ghost use Rattle.std.specs.Prelude.{◌≡◌, ◌<◌, ◌⊎◌, ◌∷◌, [], ◌^◌, ℕ, ◌↔◌, length, IfOk, OnOk, MatchOption};
ghost use Rattle.language_model.specs.Recursion.{IsCall, Leads, IsFirstRecursion};
ghost use Rattle.language_model.specs.parts.Recursion.{IsAcyclic};
ghost use Rattle.place_sets.specs.Places.{HasPlace, IsSet};
ghost use Rattle.cycle_rules.specs.steps.Callers.{Lists, Reached, AreEmpty, AreCallers, Notes, NotesAll};
ghost use Rattle.cycle_rules.specs.steps.Taking.{Readies, IsTaken, Takes, Misses};
ghost use Rattle.cycle_rules.specs.steps.Backs.{TellsBack, NoneBack, FirstBack, IsRecursionAt};

use place_sets::PlaceSet;
use spl_tree::Placed;
use spl_value::{Items, NoMemory};
use std::alloc::Global;

/// Notes that one calls another.
fn note(callers: &mut Vec<Items<u32>>, to: u32, from: u32) -> Result<(), NoMemory>
    ensures { OnOk result (Notes callers.old.items callers.new.items to from) }
{
    let to = to as usize;
    if to >= callers.len() {
        return Ok(());
    }
    callers[to].push(from)?;
    Ok(())
}

/// Notes all calls of one.
fn note_all(callers: &mut Vec<Items<u32>>, calls: &[Placed<u32>], from: u32) -> Result<(), NoMemory>
    ensures { OnOk result (NotesAll callers.old.items callers.new.items calls.now from) }
{
    for call in calls {
        note(callers, call.what, from)?;
    }
    Ok(())
}

fn empty_lists(alloc: Global, count: usize) -> Result<Vec<Items<u32>>, NoMemory>
    ensures { IfOk result (λ lists. AreEmpty count lists.items) }
{
    let mut lists = Vec::with_capacity(alloc, count)?;
    for _ in 0..count {
        lists.push(Items::new(alloc))?;
    }
    Ok(lists)
}

/// For each, those that call it.
fn callers_of(alloc: Global, calls: &[Items<Placed<u32>>]) -> Result<Vec<Items<u32>>, NoMemory>
    requires { length calls.now < 2 ^ 32 }
    ensures { IfOk result (λ callers. AreCallers calls.now callers.items) }
{
    let mut callers = empty_lists(alloc, calls.len())?;
    for (from, list) in calls.iter().enumerate() {
        note_all(&mut callers, list.as_slice(), from as u32)?;
    }
    Ok(callers)
}

/// Those that lead to a place, by the lists of callers.
fn leading_to(alloc: Global, callers: &[Items<u32>], place: usize) -> Result<PlaceSet, NoMemory>
    requires place { place < length callers.now }
    requires within { (at of : ℕ) → Lists callers.now at of → of < length callers.now }
    ensures set { IfOk result (λ s. IsSet s) }
    ensures leading { IfOk result (λ s. (i : ℕ) → HasPlace s.places.items i ↔ Reached callers.now place i) }
{
    let mut found = PlaceSet::new(alloc, callers.len())?;
    add_leading(callers, place, &mut found)?;
    Ok(found)
}

/// Adds those that lead to a place to a set without any.
fn add_leading(callers: &[Items<u32>], place: usize, found: &mut PlaceSet) -> Result<(), NoMemory>
    requires place { place < length callers.now }
    requires within { (at of : ℕ) → Lists callers.now at of → of < length callers.now }
    requires empty { IsSet found.old × (length found.old.marks.items ≡ length callers.now) × (found.old.places.items ≡ []) }
    ensures set { OnOk result (IsSet found.new) }
    ensures leading { OnOk result ((i : ℕ) → HasPlace found.new.places.items i ↔ Reached callers.now place i) }
{
    found.add_all(callers[place].as_slice())?;
    let mut told = 0;
    'told: while told < found.places.len() {
        let next = found.places[told] as usize;
        found.add_all(callers[next].as_slice())?;
        told += 1;
    }
    Ok(())
}

/// Whether all that these calls call is in the set.
fn is_ready(calls: &[Placed<u32>], taken: &PlaceSet) -> bool
    requires { IsSet taken.now }
    ensures { Readies calls.now taken.now.places.items result }
{
    for call in calls {
        if !taken.has(call.what) {
            return false;
        }
    }
    true
}

/// Takes a caller if all that it calls is taken.
fn take(calls: &[Items<Placed<u32>>], place: u32, taken: &mut PlaceSet) -> Result<(), NoMemory>
    requires { IsTaken calls.now taken.old }
    ensures { OnOk result (Takes calls.now (place ∷ []) taken.old taken.new) }
{
    let Some(list) = calls.get(place as usize) else {
        return Ok(());
    };
    if !is_ready(list.as_slice(), taken) {
        return Ok(());
    }
    taken.add(place)
}

/// Takes those of these callers of which all that they call is taken.
fn take_ready(
    calls: &[Items<Placed<u32>>],
    places: &[u32],
    taken: &mut PlaceSet,
) -> Result<(), NoMemory>
    requires { IsTaken calls.now taken.old }
    ensures { OnOk result (Takes calls.now places.now taken.old taken.new) }
{
    for place in places {
        take(calls, *place, taken)?;
    }
    Ok(())
}

/// How many calls each has.
fn call_counts(alloc: Global, calls: &[Items<Placed<u32>>]) -> Result<Vec<usize>, NoMemory> {
    let mut counts = Vec::with_capacity(alloc, calls.len())?;
    for list in calls {
        counts.push(list.len())?;
    }
    Ok(counts)
}

/// Counts one call less, and says whether none is left.
fn is_last(left: &mut [usize], caller: u32) -> bool {
    match left.get_mut(caller as usize) {
        Some(count) => {
            *count = count.saturating_sub(1);
            *count == 0
        }
        None => false,
    }
}

/// Adds the callers that call nothing more, once one is taken that they call.
fn add_last(left: &mut [usize], callers: &[u32], order: &mut Vec<u32>) -> Result<(), NoMemory> {
    for caller in callers {
        if is_last(left, *caller) {
            order.push(*caller)?;
        }
    }
    Ok(())
}

/// The callers that call nothing.
fn without_calls(alloc: Global, calls: &[Items<Placed<u32>>]) -> Result<Vec<u32>, NoMemory>
    requires { length calls.now < 2 ^ 32 }
{
    let mut order = Vec::new(alloc);
    for (place, list) in calls.iter().enumerate() {
        if list.is_empty() {
            order.push(place as u32)?;
        }
    }
    Ok(order)
}

/// Adds each number below a bound.
fn add_all_below(bound: usize, places: &mut Vec<u32>) -> Result<(), NoMemory>
    requires { bound < 2 ^ 32 }
    ensures { OnOk result ((i : ℕ) → i < bound → HasPlace places.new.items i) }
{
    for place in 0..bound {
        places.push(place as u32)?;
    }
    Ok(())
}

/// Adds to the callers that call nothing those from which no cycle is reached, each after those that it
/// calls.
fn add_acyclic(
    alloc: Global,
    calls: &[Items<Placed<u32>>],
    callers: &[Items<u32>],
    order: &mut Vec<u32>,
) -> Result<(), NoMemory> {
    let mut left = call_counts(alloc, calls)?;
    for next in 0..calls.len() {
        let Some(place) = order.get(next) else {
            break;
        };
        if let Some(list) = callers.get(*place as usize) {
            add_last(left.as_mut_slice(), list.as_slice(), order)?;
        }
    }
    Ok(())
}

/// All callers, and before them, by the counts of their calls, those from which no cycle is reached,
/// each after those that it calls. Only the time that `taken_callers` takes depends on these.
fn likely_order(
    alloc: Global,
    calls: &[Items<Placed<u32>>],
    callers: &[Items<u32>],
) -> Result<Vec<u32>, NoMemory>
    requires { length calls.now < 2 ^ 32 }
    ensures { IfOk result (λ order. (i : ℕ) → i < length calls.now → HasPlace order.items i) }
{
    let mut order = without_calls(alloc, calls)?;
    add_acyclic(alloc, calls, callers, &mut order)?;
    add_all_below(calls.len(), &mut order)?;
    Ok(order)
}

/// The callers that lead to no cycle, each after those that it calls.
fn taken_callers(
    alloc: Global,
    calls: &[Items<Placed<u32>>],
    callers: &[Items<u32>],
) -> Result<PlaceSet, NoMemory>
    requires { length calls.now < 2 ^ 32 }
    ensures taken { IfOk result (λ taken. IsTaken calls.now taken) }
    ensures others { IfOk result (λ taken. (i : ℕ) → i < length calls.now → HasPlace taken.places.items i ⊎ Misses calls.now taken.places.items i) }
{
    let places = likely_order(alloc, calls, callers)?;
    let mut taken = PlaceSet::new(alloc, calls.len())?;
    'passes: loop {
        let before = taken.places.len();
        take_ready(calls, places.as_slice(), &mut taken)?;
        if taken.places.len() == before {
            return Ok(taken);
        }
    }
}

/// Whether a call leads back to a place, to which those of the set lead.
fn leads_back(call: &Placed<u32>, place: u32, leading: &PlaceSet) -> bool
    requires { IsSet leading.now }
    ensures { TellsBack leading.now.places.items place call.now result }
{
    call.what == place || leading.has(call.what)
}

/// Where the first of these calls stands that leads back to a place, to which those of the set lead.
fn first_back(calls: &[Placed<u32>], place: u32, leading: &PlaceSet) -> Option<u32>
    requires { IsSet leading.now }
    ensures { MatchOption result (NoneBack leading.now.places.items place calls.now) (FirstBack leading.now.places.items place calls.now) }
{
    for call in calls {
        if leads_back(call, place, leading) {
            return Some(call.at);
        }
    }
    None
}

/// Where the first call of a caller stands that leads back to it.
fn recursion_at(
    alloc: Global,
    calls: &[Items<Placed<u32>>],
    callers: &[Items<u32>],
    taken: &PlaceSet,
    place: usize,
) -> Result<Option<u32>, NoMemory>
    requires place { place < length calls.now }
    requires fits { length calls.now < 2 ^ 32 }
    requires callers { AreCallers calls.now callers.now }
    requires taken { IsTaken calls.now taken.now }
    ensures { IfOk result (λ found. MatchOption found (Leads calls.now place place → ⊥) (IsRecursionAt calls.now place)) }
{
    if taken.has(place as u32) {
        return Ok(None);
    }
    let leading = leading_to(alloc, callers, place)?;
    Ok(first_back(calls[place].as_slice(), place as u32, &leading))
}

/// One that reaches itself: its place among the callers, and the place of the first call in it that
/// leads back.
#[derive(Clone, Copy)]
pub(crate) struct Recursion {
    pub(crate) caller: usize,
    pub(crate) at: u32,
}

/// The first caller that reaches itself and that isn't taken.
fn first_left(
    alloc: Global,
    calls: &[Items<Placed<u32>>],
    callers: &[Items<u32>],
    taken: &PlaceSet,
) -> Result<Option<Recursion>, NoMemory>
    requires fits { length calls.now < 2 ^ 32 }
    requires callers { AreCallers calls.now callers.now }
    requires taken { IsTaken calls.now taken.now }
    ensures { IfOk result (λ found. MatchOption found (IsAcyclic calls.now) (λ r. IsFirstRecursion calls.now r.caller r.at)) }
{
    for caller in 0..calls.len() {
        if let Some(at) = recursion_at(alloc, calls, callers, taken, caller)? {
            return Ok(Some(Recursion { caller, at }));
        }
    }
    Ok(None)
}

/// The first caller that reaches itself.
pub(crate) fn first_recursion(
    alloc: Global,
    calls: &[Items<Placed<u32>>],
) -> Result<Option<Recursion>, NoMemory>
    requires { length calls.now < 2 ^ 32 }
    ensures { IfOk result (λ found. MatchOption found (IsAcyclic calls.now) (λ r. IsFirstRecursion calls.now r.caller r.at)) }
{
    let callers = callers_of(alloc, calls)?;
    let taken = taken_callers(alloc, calls, callers.as_slice())?;
    first_left(alloc, calls, callers.as_slice(), &taken)
}
