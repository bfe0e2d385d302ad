//! Values that may yet be the first by their order, when those before them have left.
ghost use Rattle.std.specs.Prelude.{◌≡◌, ◌∷◌, ◌++◌, [], List, IfOk, filter, not, true};
ghost use Rattle.std.specs.Option.{option_copied, option_map_or};
ghost use Rattle.spl_value.specs.declared.value.Value.{Value as V};
ghost use Rattle.stream_model.specs.Aggregates.{least_by};
ghost use Rattle.stream_model.specs.Windows.{near};
ghost use Rattle.tuple_groups.specs.Extremes.{before};
ghost use Rattle.running_folds.specs.Moving.{NoneBehind};

use spl_value::{NoMemory, Value, copy_value};
use std::alloc::Global;
use std::collections::VecDeque;
use tuple_groups::is_before;

/// Takes the values out before which a new one comes. They stand behind the others.
fn make_way(greatest: bool, queue: &mut VecDeque<Value>, value: &Value)
    ensures { NoneBehind (before greatest) queue.old.items → queue.new.items ≡ filter (λ u. not (before greatest value.now u)) queue.old.items }
{
    'backs: while let Some(last) = queue.back() {
        if !is_before(greatest, value, last) {
            break;
        }
        let _ = queue.pop_back();
    }
}

/// Takes one more value.
pub fn pass(
    alloc: Global,
    greatest: bool,
    queue: &mut VecDeque<Value>,
    value: &Value,
) -> Result<(), NoMemory>
    ensures { IfOk result (λ _. (vs : List V) → queue.old.items ≡ near (before greatest) vs → queue.new.items ≡ near (before greatest) (vs ++ value.now ∷ [])) }
{
    make_way(greatest, queue, value);
    queue.push_back(copy_value(alloc, value)?)?;
    Ok(())
}

/// Whether a value comes before another one, where it is there.
fn is_behind(greatest: bool, front: Option<&Value>, value: &Value) -> bool
    ensures { result ≡ option_map_or (λ f. before greatest f value.now) (option_copied front.entry) true }
{
    match front {
        Some(front) => is_before(greatest, front, value),
        None => true,
    }
}

/// Lets the first value go.
pub fn leave(greatest: bool, queue: &mut VecDeque<Value>, value: &Value)
    ensures { (vs : List V) → queue.old.items ≡ near (before greatest) (value.now ∷ vs) → queue.new.items ≡ near (before greatest) vs }
{
    if !is_behind(greatest, queue.front(), value) {
        let _ = queue.pop_front();
    }
}

/// The first value by the order.
pub fn best<'a>(greatest: bool, queue: &'a VecDeque<Value>) -> Option<&'a Value>
    ensures { (vs : List V) → queue.now.items ≡ near (before greatest) vs → option_copied result ≡ least_by (before greatest) vs }
{
    queue.front()
}
