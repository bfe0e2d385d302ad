//! Windows of a number of tuples, and triggers.
ghost use Rattle.std.specs.Prelude.{◌≡◌, ◌∷◌, [], ◌++◌, ◌==◌, suc, length, IfOk, if◌then◌else◌};
ghost use Rattle.stream_model.specs.Windows.{trigger_if};
ghost use Rattle.stream_model.specs.parts.Windows.{flush_if};
ghost use Rattle.window_policy.specs.Answers.{firing_of};
ghost use Rattle.window_policy.specs.Parts.{CountsTo, turns_at};

use crate::fired::Fired;
use crate::ring::{push, take_all};
use circular_buffer::HeapCircularBuffer;
use spl_value::{NoMemory, Values};
use std::alloc::Global;

/// A tumbling window of `count` tuples takes one more. With the last of them it is flushed.
pub fn fill(
    alloc: Global,
    kept: &mut HeapCircularBuffer<Values>,
    count: u64,
    tuple: Values,
) -> Result<Fired, NoMemory>
    ensures kept { IfOk result (λ _. kept.new.items ≡ (if length (kept.old.items ++ tuple ∷ []) == count then [] else kept.old.items ++ tuple ∷ [])) }
    ensures fired { IfOk result (λ f. (stays : _) → firing_of f stays ≡ flush_if (length (kept.old.items ++ tuple ∷ []) == count) (kept.old.items ++ tuple ∷ [])) }
{
    push(kept, tuple)?;
    if kept.len() as u64 == count {
        let whole = take_all(alloc, kept)?;
        Ok(Fired::Whole(whole))
    } else {
        Ok(Fired::No)
    }
}

/// Counts one more tuple. Whether it is one after each `every` of them: without `every`, none is.
pub fn is_turn(since: &mut u64, every: Option<u64>) -> bool
    ensures { (n : _) → CountsTo every since.old n → CountsTo every since.new (suc n) × (result ≡ turns_at every (suc n)) }
{
    match every {
        None => false,
        Some(every) => {
            if every <= *since || every - *since == 1 {
                *since = 0;
                true
            } else {
                *since += 1;
                false
            }
        }
    }
}

/// Counts one more tuple for a trigger, which fires once every `every` tuples. A window without one never fires.
pub fn count_tuple(since: &mut u64, every: Option<u64>) -> Fired
    ensures { (n stays : _) → CountsTo every since.old n
        → CountsTo every since.new (suc n) × (firing_of result stays ≡ trigger_if every (suc n) stays) }
{
    if is_turn(since, every) {
        Fired::Stays
    } else {
        Fired::No
    }
}
