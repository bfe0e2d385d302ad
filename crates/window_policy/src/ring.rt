//! Tuples in a ring, which begins without room and grows.
ghost use Rattle.std.specs.Prelude.{◌≡◌, ◌∷◌, [], ◌++◌, ◌+◌, ◌-◌, ◌^◌, ◌<◌, ◌≤◌, IfOk, length, drop};

use circular_buffer::HeapCircularBuffer;
use language_model::Tuples;
use spl_value::{Items, NoMemory, Values};
use std::alloc::Global;

/// Makes room for one more tuple, where there are fewer than `most`. The room about doubles, up to `most`.
fn make_room(ring: &mut HeapCircularBuffer<Values>, most: usize) -> Result<(), NoMemory>
    ensures items { IfOk result (λ _. ring.new.items ≡ ring.old.items) }
    ensures room { IfOk result (λ _. length ring.old.items < most → length ring.new.items < ring.new.capacity) }
    ensures few { IfOk result (λ _. length ring.old.items < 2 ^ 63) }
{
    let capacity = ring.capacity();
    if ring.is_full() && capacity < most {
        let more = if capacity < most / 2 {
            capacity * 2 + 1
        } else {
            most
        };
        ring.resize(more)?;
    }
    Ok(())
}

/// Adds a tuple after the others.
pub fn push(ring: &mut HeapCircularBuffer<Values>, tuple: Values) -> Result<(), NoMemory>
    ensures { IfOk result (λ _. ring.new.items ≡ ring.old.items ++ tuple ∷ []) }
{
    make_room(ring, usize::MAX)?;
    let _ = ring.push_back(tuple);
    Ok(())
}

/// Adds a tuple after fewer than `most` others.
pub fn append(
    ring: &mut HeapCircularBuffer<Values>,
    most: usize,
    tuple: Values,
) -> Result<(), NoMemory>
    ensures { IfOk result (λ _. length ring.old.items < most → ring.new.items ≡ ring.old.items ++ tuple ∷ []) }
{
    make_room(ring, most)?;
    let _ = ring.push_back(tuple);
    Ok(())
}

/// Adds a tuple after the others, of which at most `keep` are kept: where there are as many, the oldest is dropped.
pub fn shift(
    ring: &mut HeapCircularBuffer<Values>,
    keep: u64,
    tuple: Values,
) -> Result<(), NoMemory>
    ensures { IfOk result (λ _. length ring.old.items ≤ keep
        → ring.new.items ≡ drop (length ring.old.items + 1 - keep) (ring.old.items ++ tuple ∷ [])) }
{
    if keep == 0 {
        return Ok(());
    }
    if ring.len() as u64 >= keep {
        let _ = ring.pop_front();
    }
    append(ring, keep as usize, tuple)
}

/// Takes all tuples out, the oldest first. The room of the ring stays.
pub fn take_all(alloc: Global, ring: &mut HeapCircularBuffer<Values>) -> Result<Tuples, NoMemory>
    ensures taken { IfOk result (λ tuples. tuples ≡ ring.old.items) }
    ensures empty { IfOk result (λ _. ring.new.items ≡ []) }
{
    let mut taken = Items::with_capacity(alloc, ring.len())?;
    'tuples: while let Some(tuple) = ring.pop_front() {
        taken.push(tuple)?;
    }
    Ok(taken)
}
