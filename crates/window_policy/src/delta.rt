//! Windows by the differences of an attribute.
ghost use Rattle.std.specs.Prelude.{◌≡◌, ◌∷◌, [], ◌++◌, ◌-◌, ◌-ℤ◌, ◌<◌, true, false, not, filter, length, slice_get, int_lt, IfOk, if◌then◌else◌};
ghost use Rattle.circular_buffer.specs.Buffer.{last_item};
ghost use Rattle.stream_model.specs.Windows.{integer_at as integer_of_tuple, exceeds as exceeds_by};
ghost use Rattle.stream_model.specs.parts.Windows.{flush_if};
ghost use Rattle.stream_model.specs.WindowLaws.{exceeds_first as first_exceeded};
ghost use Rattle.window_policy.specs.Answers.{firing_of};
ghost use Rattle.window_policy.specs.Deltas.{Rises};
ghost use Rattle.window_policy.specs.steps.Deltas.{is_left, passed};

use crate::fired::Fired;
use crate::ring::{push, take_all};
use circular_buffer::HeapCircularBuffer;
use spl_value::{NoMemory, Value, Values};
use std::alloc::Global;

/// The integer of an attribute, and 0 where there is none.
pub fn integer_at(attr: u32, tuple: &Values) -> i128
    ensures { result ≡ integer_of_tuple attr tuple.now }
{
    match tuple.get(attr as usize) {
        Some(Value::Int(n)) => *n,
        _ => 0,
    }
}

/// Whether one integer exceeds another by more than the limit. The difference doesn't wrap.
pub fn exceeds(limit: i128, new: i128, old: i128) -> bool
    ensures { result ≡ int_lt limit (new -ℤ old) }
{
    match new.checked_sub(old) {
        Some(difference) => limit < difference,
        None => old < new,
    }
}

/// Whether a tuple exceeds the first one that is kept by more than the limit.
fn exceeds_first(kept: &HeapCircularBuffer<Values>, attr: u32, limit: i128, tuple: &Values) -> bool
    ensures { result ≡ first_exceeded attr limit tuple.now kept.now.items }
{
    match kept.front() {
        Some(first) => exceeds(limit, integer_at(attr, tuple), integer_at(attr, first)),
        None => false,
    }
}

/// A tumbling window takes one more tuple. It is flushed before one that exceeds its first tuple by more
/// than the limit.
pub fn tumble(
    alloc: Global,
    kept: &mut HeapCircularBuffer<Values>,
    attr: u32,
    limit: i128,
    tuple: Values,
) -> Result<Fired, NoMemory>
    ensures kept { IfOk result (λ _. kept.new.items ≡ (if first_exceeded attr limit tuple kept.old.items then tuple ∷ [] else kept.old.items ++ tuple ∷ [])) }
    ensures fired { IfOk result (λ f. (stays : _) → firing_of f stays ≡ flush_if (first_exceeded attr limit tuple kept.old.items) kept.old.items) }
{
    if exceeds_first(kept, attr, limit, &tuple) {
        let whole = take_all(alloc, kept)?;
        push(kept, tuple)?;
        Ok(Fired::Whole(whole))
    } else {
        push(kept, tuple)?;
        Ok(Fired::No)
    }
}

/// Moves the first tuple to the end, unless the new integer exceeds its attribute by more than the
/// limit: then it is evicted.
fn pass_first(kept: &mut HeapCircularBuffer<Values>, attr: u32, limit: i128, new: i128)
    ensures items { kept.new.items ≡ passed attr limit new kept.old.items }
{
    let _room = kept.capacity();
    if let Some(tuple) = kept.pop_front() {
        if !exceeds(limit, new, integer_at(attr, &tuple)) {
            let _ = kept.push_back(tuple);
        }
    }
}

/// Evicts every tuple that the new integer exceeds by more than the limit, wherever it stands.
fn evict(kept: &mut HeapCircularBuffer<Values>, attr: u32, limit: i128, new: i128)
    ensures { kept.new.items ≡ filter (is_left attr limit new) kept.old.items }
{
    for turn in 0..kept.len() {
        pass_first(kept, attr, limit, new);
    }
}

/// Evicts the same tuples where the attribute rises: they stand in front of the others.
fn evict_front(kept: &mut HeapCircularBuffer<Values>, attr: u32, limit: i128, new: i128)
    ensures evicted { Rises attr kept.old.items → kept.new.items ≡ filter (is_left attr limit new) kept.old.items }
    ensures rises { Rises attr kept.old.items → Rises attr kept.new.items }
{
    'fronts: while let Some(first) = kept.front() {
        if !exceeds(limit, new, integer_at(attr, first)) {
            break;
        }
        let _ = kept.pop_front();
    }
}

/// Whether the attribute at a place is below the one before it.
fn falls_at(kept: &HeapCircularBuffer<Values>, attr: u32, i: usize) -> bool
    requires first { 0 < i }
    requires within { i < length kept.now.items }
    ensures { (before tuple : _) → slice_get kept.now.items (i - 1) ≡ Some before → slice_get kept.now.items i ≡ Some tuple
        → result ≡ int_lt (integer_of_tuple attr tuple) (integer_of_tuple attr before) }
{
    match (kept.get(i - 1), kept.get(i)) {
        (Some(before), Some(tuple)) => integer_at(attr, tuple) < integer_at(attr, before),
        _ => unreachable!(),
    }
}

/// Whether the attribute rises.
fn is_rising(kept: &HeapCircularBuffer<Values>, attr: u32) -> bool
    ensures { result ≡ true → Rises attr kept.now.items }
{
    for i in 1..kept.len() {
        if falls_at(kept, attr, i) {
            return false;
        }
    }
    true
}

/// Whether an integer isn't below the last tuple's attribute.
fn rises_to(kept: &HeapCircularBuffer<Values>, attr: u32, new: i128) -> bool
    ensures { result ≡ true → (last : _) → last_item kept.now.items ≡ Some last → int_lt new (integer_of_tuple attr last) ≡ false }
{
    match kept.back() {
        Some(last) => new >= integer_at(attr, last),
        None => true,
    }
}

/// Evicts every tuple that the new integer exceeds by more than the limit. Where the attribute is known to
/// rise, only what is evicted is looked at, and one more. Answers whether it is known to rise in what is left.
fn make_way(
    kept: &mut HeapCircularBuffer<Values>,
    rises: bool,
    attr: u32,
    limit: i128,
    new: i128,
) -> bool
    ensures evicted { (rises ≡ true → Rises attr kept.old.items) → kept.new.items ≡ filter (is_left attr limit new) kept.old.items }
    ensures rises { (rises ≡ true → Rises attr kept.old.items) → result ≡ true → Rises attr kept.new.items }
{
    if rises {
        evict_front(kept, attr, limit, new);
        true
    } else {
        evict(kept, attr, limit, new);
        is_rising(kept, attr)
    }
}

/// A sliding window takes one more tuple, and evicts every one that it exceeds by more than the limit.
/// `rises` says that the attribute is known to rise.
pub fn slide(
    kept: &mut HeapCircularBuffer<Values>,
    rises: &mut bool,
    attr: u32,
    limit: i128,
    tuple: Values,
) -> Result<(), NoMemory>
    ensures kept { IfOk result (λ _. (rises.old ≡ true → Rises attr kept.old.items)
        → kept.new.items ≡ filter (λ u. not (exceeds_by attr limit tuple u)) kept.old.items ++ tuple ∷ []) }
    ensures rises { IfOk result (λ _. (rises.old ≡ true → Rises attr kept.old.items) → rises.new ≡ true → Rises attr kept.new.items) }
{
    let new = integer_at(attr, &tuple);
    let rising = make_way(kept, *rises, attr, limit, new);
    *rises = rising && rises_to(kept, attr, new);
    push(kept, tuple)?;
    Ok(())
}
