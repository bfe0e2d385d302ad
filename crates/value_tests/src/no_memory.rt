//! Puts that find no memory. In the gate this test finds enough; `tools/failing-puts` runs it so that each of its
//! allocations fails in turn.
ghost use Rattle.std.specs.Prelude.{IsTrue};
ghost use Rattle.spl_value.specs.Pairs.{are_pairs};

use crate::histories::{is_value, value_of};
use crate::orders::{KEYS, Order};
use spl_value::{NoMemory, Pairs, SegmentedList, Value};
use std::alloc::Global;

// How many keys are put.
const COUNT: u32 = 400;

// Whether the pairs have ascending keys, and are so many.
fn are_rising(pairs: &Pairs, count: usize) -> bool {
    let mut walked = 0usize;
    let mut above = -1;
    for pair in pairs {
        let Value::Int(key) = &pair.0 else {
            return false;
        };
        if *key <= above {
            return false;
        }
        above = *key;
        walked = walked.wrapping_add(1);
    }
    walked == count && pairs.len() == count
}

// Whether the pairs are so many, and those of the keys that came before a step.
fn are_as_before(pairs: &Pairs, order: Order, step: u32, count: usize) -> bool
    requires { IsTrue (are_pairs pairs.now) }
{
    for earlier in 0..step {
        let key = order.key_at(earlier);
        if key < COUNT && !is_value(pairs.find(&Value::Int(i128::from(key))), key, true) {
            return false;
        }
    }
    are_rising(pairs, count)
}

// Puts the key of a step, once more where that finds no memory: whether that left the pairs as they were.
fn is_put(pairs: &mut Pairs, order: Order, step: u32) -> Result<bool, NoMemory>
    requires { IsTrue (are_pairs pairs.old) }
    ensures { IsTrue (are_pairs pairs.new) }
{
    let key = order.key_at(step);
    let count = pairs.len();
    match pairs.put(Value::Int(i128::from(key)), Value::Int(value_of(key))) {
        Ok(()) => Ok(true),
        Err(NoMemory) => {
            let unchanged = are_as_before(pairs, order, step, count);
            pairs.put(Value::Int(i128::from(key)), Value::Int(value_of(key)))?;
            Ok(unchanged)
        }
    }
}

// Whether all keys are put in an order, and no put that finds no memory changes anything.
fn are_put(alloc: Global, order: Order) -> Result<bool, NoMemory> {
    let mut pairs = SegmentedList::new(alloc);
    let mut all = true;
    for step in 0..KEYS {
        if order.key_at(step) < COUNT {
            all = is_put(&mut pairs, order, step)? && all;
        }
    }
    Ok(all && are_as_before(&pairs, order, KEYS, COUNT as usize))
}

#[test]
fn a_put_without_memory_leaves_a_map_as_it_was(rt: HostRuntime) -> Result<(), NoMemory> {
    let alloc = rt.alloc();
    for order in [Order::Rising, Order::Falling, Order::Random] {
        assert!(rt; are_put(alloc, order)?);
    }
    Ok(())
}
