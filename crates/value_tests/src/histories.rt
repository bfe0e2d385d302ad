//! Maps that were filled, emptied and filled again in several orders.
ghost use Rattle.std.specs.Prelude.{IsTrue};
ghost use Rattle.spl_value.specs.Pairs.{are_pairs};

use crate::orders::{KEYS, Order, order_named};
use spl_value::{NoMemory, Pairs, SegmentedList, Value};
use std::alloc::{AllocError, Global};
use test_texts::rows::{Answers, Untrue, expect};
use test_texts::text::Text;
use test_texts::words::{cut, number};

/// The value that each key gets.
pub(crate) fn value_of(key: u32) -> i128 {
    3 * i128::from(key) + 1
}

/// Puts the keys below a number, in an order.
pub(crate) fn fill(pairs: &mut Pairs, order: Order, count: u32) -> Result<(), NoMemory>
    requires { IsTrue (are_pairs pairs.old) }
    ensures { IsTrue (are_pairs pairs.new) }
{
    for step in 0..KEYS {
        let key = order.key_at(step);
        if key < count {
            pairs.put(Value::Int(i128::from(key)), Value::Int(value_of(key)))?;
        }
    }
    Ok(())
}

/// Whether what stands at a key is its value if it was put there, and else nothing.
pub(crate) fn is_value(at_key: Option<&Value>, key: u32, is_there: bool) -> bool {
    match at_key {
        Some(Value::Int(value)) => is_there && *value == value_of(key),
        Some(_) => false,
        None => !is_there,
    }
}

// Whether a key that is taken out gives its value if it was there, and else nothing.
fn is_taken(pairs: &mut Pairs, key: u32, was_there: bool) -> bool
    requires { IsTrue (are_pairs pairs.old) }
    ensures { IsTrue (are_pairs pairs.new) }
{
    let taken = pairs.remove_key(&Value::Int(i128::from(key)));
    is_value(taken.as_ref(), key, was_there)
}

// Whether a number is a multiple of another one. None is one of 0.
fn is_multiple(number: u32, of: u32) -> bool {
    number.checked_rem(of) == Some(0)
}

/// Takes out the keys below a number that aren't multiples of `kept`, in an order: whether those that are
/// multiples of `had` were there, each with its value, and no others.
pub(crate) fn are_taken(pairs: &mut Pairs, order: Order, count: u32, had: u32, kept: u32) -> bool
    requires { IsTrue (are_pairs pairs.old) }
    ensures { IsTrue (are_pairs pairs.new) }
{
    let mut all = true;
    for step in 0..KEYS {
        let key = order.key_at(step);
        if key < count && !is_multiple(key, kept) {
            all = is_taken(pairs, key, is_multiple(key, had)) && all;
        }
    }
    all
}

fn is_pair(pair: &(Value, Value), wanted: u32) -> bool {
    match pair {
        (Value::Int(key), Value::Int(value)) => {
            *key == i128::from(wanted) && *value == value_of(wanted)
        }
        _ => false,
    }
}

// Whether the pairs are those of so many multiples of a number, from 0, in their order.
fn are_in_order(pairs: &Pairs, wanted: u32, of: u32) -> bool {
    let mut walked = 0u32;
    for pair in pairs {
        if !is_pair(pair, walked.wrapping_mul(of)) {
            return false;
        }
        walked = walked.wrapping_add(1);
    }
    walked == wanted && pairs.len() == wanted as usize
}

// Whether the multiples of a number are found among the keys below another one, and no others.
fn are_found(pairs: &Pairs, count: u32, of: u32) -> bool
    requires { IsTrue (are_pairs pairs.now) }
{
    for key in 0..count {
        let found = pairs.find(&Value::Int(i128::from(key)));
        if !is_value(found, key, is_multiple(key, of)) {
            return false;
        }
    }
    true
}

// Adds how many pairs there are, where they are those of the multiples of a number below another one.
fn add_multiples(text: &mut Text, pairs: &Pairs, count: u32, of: u32)
    requires { IsTrue (are_pairs pairs.now) }
{
    let wanted = if of == 0 { 0 } else { count.div_ceil(of) };
    if are_in_order(pairs, wanted, of) && are_found(pairs, count, of) {
        text.add_place(" ", wanted);
    } else {
        text.add(" others");
    }
}

// Adds how many pairs there are once all keys but the multiples of 3 are taken out, once all are, and once
// they are put again, each in an order.
fn add_round(text: &mut Text, pairs: &mut Pairs, order: Order, count: u32) -> Result<(), NoMemory>
    requires { IsTrue (are_pairs pairs.old) }
    ensures { IsTrue (are_pairs pairs.new) }
{
    let some_taken = are_taken(pairs, order, count, 1, 3);
    add_multiples(text, pairs, count, 3);
    let all_taken = are_taken(pairs, order, count, 3, 0);
    add_multiples(text, pairs, count, 0);
    fill(pairs, order, count)?;
    add_multiples(text, pairs, count, 1);
    text.add(if some_taken && all_taken { ";" } else { "!" });
    Ok(())
}

fn add_history(alloc: Global, text: &mut Text, count: u32, order: Order) -> Result<(), NoMemory> {
    let mut pairs = SegmentedList::new(alloc);
    fill(&mut pairs, order, count)?;
    text.add("put");
    add_multiples(text, &pairs, count, 1);
    text.add(", rising");
    add_round(text, &mut pairs, Order::Rising, count)?;
    text.add(" falling");
    add_round(text, &mut pairs, Order::Falling, count)?;
    text.add(" random");
    add_round(text, &mut pairs, Order::Random, count)
}

// How many pairs there are once so many keys are put in an order, and after rounds in each order.
struct Histories;

impl Answers for Histories {
    fn answer(&self, alloc: Global, text: &str) -> Result<String, AllocError> {
        let (count, order) = cut(text);
        let mut shown = Text::new(alloc);
        match add_history(alloc, &mut shown, number(count), order_named(order)) {
            Ok(()) => shown.finish(),
            Err(NoMemory) => Err(AllocError),
        }
    }
}

const ROWS: &str = r#"
0 rising => put 0, rising 0 0 0; falling 0 0 0; random 0 0 0;
0 falling => put 0, rising 0 0 0; falling 0 0 0; random 0 0 0;
0 random => put 0, rising 0 0 0; falling 0 0 0; random 0 0 0;
1 rising => put 1, rising 1 0 1; falling 1 0 1; random 1 0 1;
1 falling => put 1, rising 1 0 1; falling 1 0 1; random 1 0 1;
1 random => put 1, rising 1 0 1; falling 1 0 1; random 1 0 1;
127 rising => put 127, rising 43 0 127; falling 43 0 127; random 43 0 127;
127 falling => put 127, rising 43 0 127; falling 43 0 127; random 43 0 127;
127 random => put 127, rising 43 0 127; falling 43 0 127; random 43 0 127;
128 rising => put 128, rising 43 0 128; falling 43 0 128; random 43 0 128;
128 falling => put 128, rising 43 0 128; falling 43 0 128; random 43 0 128;
128 random => put 128, rising 43 0 128; falling 43 0 128; random 43 0 128;
129 rising => put 129, rising 43 0 129; falling 43 0 129; random 43 0 129;
129 falling => put 129, rising 43 0 129; falling 43 0 129; random 43 0 129;
129 random => put 129, rising 43 0 129; falling 43 0 129; random 43 0 129;
16384 rising => put 16384, rising 5462 0 16384; falling 5462 0 16384; random 5462 0 16384;
16384 falling => put 16384, rising 5462 0 16384; falling 5462 0 16384; random 5462 0 16384;
16384 random => put 16384, rising 5462 0 16384; falling 5462 0 16384; random 5462 0 16384;
200000 rising => put 200000, rising 66667 0 200000; falling 66667 0 200000; random 66667 0 200000;
200000 falling => put 200000, rising 66667 0 200000; falling 66667 0 200000; random 66667 0 200000;
200000 random => put 200000, rising 66667 0 200000; falling 66667 0 200000; random 66667 0 200000;
"#;

#[test]
fn keys_are_put_and_taken_in_each_order(rt: HostRuntime) -> Result<(), Untrue> {
    expect(rt.alloc(), &Histories, &[ROWS])
}
