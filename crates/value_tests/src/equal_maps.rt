//! Equal maps that were built in different ways.
ghost use Rattle.std.specs.Prelude.{IsTrue};
ghost use Rattle.spl_value.specs.Pairs.{are_pairs};

use crate::histories::{are_taken, fill, value_of};
use crate::orders::{KEYS, Order, order_named};
use spl_value::{Items, NoMemory, Pairs, SegmentedList, Value, copy_value, order, same};
use std::alloc::{AllocError, Global};
use std::collections::HashMap;
use std::hash::{DefaultHasher, Hash, Hasher};
use test_texts::rows::{Answers, Untrue, expect};
use test_texts::text::Text;
use test_texts::words::{cut, number};

// What stands at a key: a number, a map of up to 149 keys that were put in an order, or a list with that map.
fn held(alloc: Global, kind: &str, order: Order, key: u32) -> Result<Value, NoMemory> {
    if kind == "numbers" {
        return Ok(Value::Int(value_of(key)));
    }
    let mut pairs = SegmentedList::new(alloc);
    fill(&mut pairs, order, key % 150)?;
    if kind == "maps" {
        return Ok(Value::Map(pairs));
    }
    let list = Items::from_vec(vec![in alloc; Value::Map(pairs)]?);
    Ok(Value::List(list))
}

// Puts the keys below a number, in an order.
fn put_all(
    alloc: Global,
    kind: &str,
    order: Order,
    count: u32,
    pairs: &mut Pairs,
) -> Result<(), NoMemory>
    requires { IsTrue (are_pairs pairs.old) }
    ensures { IsTrue (are_pairs pairs.new) }
{
    for step in 0..KEYS {
        let key = order.key_at(step);
        if key < count {
            let value = held(alloc, kind, order, key)?;
            pairs.put(Value::Int(i128::from(key)), value)?;
        }
    }
    Ok(())
}

// The map of the keys that are put in one order.
fn filled(alloc: Global, kind: &str, order: Order, count: u32) -> Result<Value, NoMemory> {
    let mut pairs = SegmentedList::new(alloc);
    put_all(alloc, kind, order, count, &mut pairs)?;
    Ok(Value::Map(pairs))
}

// The same map, of which two thirds were taken out in another order and put again.
fn filled_again(
    alloc: Global,
    kind: &str,
    order: Order,
    again: Order,
    count: u32,
) -> Result<Value, NoMemory> {
    let mut pairs = SegmentedList::new(alloc);
    put_all(alloc, kind, order, count, &mut pairs)?;
    are_taken(&mut pairs, again, count, 1, 3);
    put_all(alloc, kind, again, count, &mut pairs)?;
    Ok(Value::Map(pairs))
}

fn hash_of(value: &Value) -> u64 {
    let mut state = DefaultHasher::new();
    value.hash(&mut state);
    state.finish()
}

// Whether a value is found by another one, as a key of a map and of a table.
fn is_one_key(alloc: Global, key: Value, other: &Value) -> Result<bool, NoMemory> {
    let mut pairs = SegmentedList::new(alloc);
    pairs.put(copy_value(alloc, &key)?, Value::Bool(true))?;
    let mut table: HashMap<Value, bool> = HashMap::new(alloc);
    table.insert(key, true)?;
    Ok(pairs.contains_key(other) && table.get(other).is_some())
}

fn add_likeness(
    alloc: Global,
    text: &mut Text,
    first: Value,
    second: &Value,
) -> Result<(), NoMemory> {
    if same(&first, second) && order(&first, second).is_eq() {
        text.add("equal");
    }
    if hash_of(&first) == hash_of(second) {
        text.add(", hashed alike");
    }
    if is_one_key(alloc, first, second)? {
        text.add(", one key");
    }
    Ok(())
}

fn add_compared(alloc: Global, text: &mut Text, words: &str) -> Result<(), NoMemory> {
    let (kind, rest) = cut(words);
    let (count, orders) = cut(rest);
    let (one, other) = cut(orders);
    let (one, other) = (order_named(one), order_named(other));
    let count = number(count);
    let first = filled(alloc, kind, one, count)?;
    let second = filled_again(alloc, kind, other, one, count)?;
    add_likeness(alloc, text, first, &second)
}

// How maps compare that have equal values at so many keys, put in one order, and put in another order, of
// which two thirds were taken out and put again in the first one.
struct Compared;

impl Answers for Compared {
    fn answer(&self, alloc: Global, text: &str) -> Result<String, AllocError> {
        let mut shown = Text::new(alloc);
        match add_compared(alloc, &mut shown, text) {
            Ok(()) => shown.finish(),
            Err(NoMemory) => Err(AllocError),
        }
    }
}

const ROWS: &str = r#"
numbers 0 rising falling => equal, hashed alike, one key
numbers 1 rising falling => equal, hashed alike, one key
numbers 127 rising falling => equal, hashed alike, one key
numbers 127 falling random => equal, hashed alike, one key
numbers 127 random rising => equal, hashed alike, one key
numbers 128 rising falling => equal, hashed alike, one key
numbers 128 falling random => equal, hashed alike, one key
numbers 128 random rising => equal, hashed alike, one key
numbers 129 rising falling => equal, hashed alike, one key
numbers 129 falling random => equal, hashed alike, one key
numbers 129 random rising => equal, hashed alike, one key
numbers 16384 rising falling => equal, hashed alike, one key
numbers 16384 falling random => equal, hashed alike, one key
numbers 16384 random rising => equal, hashed alike, one key
numbers 200000 rising falling => equal, hashed alike, one key
numbers 200000 falling random => equal, hashed alike, one key
numbers 200000 random rising => equal, hashed alike, one key

# maps in maps and in lists
maps 1 rising falling => equal, hashed alike, one key
maps 150 rising falling => equal, hashed alike, one key
maps 150 falling random => equal, hashed alike, one key
maps 150 random rising => equal, hashed alike, one key
lists 1 rising falling => equal, hashed alike, one key
lists 150 rising falling => equal, hashed alike, one key
lists 150 falling random => equal, hashed alike, one key
lists 150 random rising => equal, hashed alike, one key
"#;

#[test]
fn equal_maps_are_alike_however_they_were_built(rt: HostRuntime) -> Result<(), Untrue> {
    expect(rt.alloc(), &Compared, &[ROWS])
}
