//! Pairs of keys and values.
ghost use Rattle.std.specs.Prelude.{IsTrue, IfOk};
ghost use Rattle.spl_value.specs.Pairs.{are_pairs};

use crate::words::{key, number};
use spl_value::{NoMemory, Pairs, SegmentedList, Value};
use std::alloc::{AllocError, Global};
use test_texts::rows::{Answers, Untrue, expect};
use test_texts::text::Text;
use test_texts::values::add_value;
use test_texts::words::cut;

/// The pairs of words as `5:50`, put in this order.
pub(crate) fn pairs_of(alloc: Global, words: &str) -> Result<Pairs, NoMemory>
    ensures { IfOk result (λ ps. IsTrue (are_pairs ps)) }
{
    let mut pairs = SegmentedList::new(alloc);
    for word in words.split_whitespace() {
        let (key, value) = word.split_once(':').unwrap_or((word, ""));
        pairs.put(Value::Int(number(key)), Value::Int(number(value)))?;
    }
    Ok(pairs)
}

fn add_optional(text: &mut Text, value: Option<&Value>) {
    match value {
        Some(value) => add_value(text, value),
        None => text.add("none"),
    }
}

fn add_pairs(text: &mut Text, pairs: Pairs) {
    add_value(text, &Value::Map(pairs));
}

// The pairs with 7 at the key.
fn add_put(text: &mut Text, key: Value, mut pairs: Pairs)
    requires { IsTrue (are_pairs pairs) }
{
    match pairs.put(key, Value::Int(7)) {
        Ok(()) => add_pairs(text, pairs),
        Err(NoMemory) => text.add("memory"),
    }
}

// The pairs with 7 written at the place that the key lends, if it lends one.
fn add_written(text: &mut Text, key: Value, mut pairs: Pairs)
    requires { IsTrue (are_pairs pairs) }
{
    let Some(place) = pairs.find_mut(&key) else {
        return text.add("none");
    };
    *place = Value::Int(7);
    add_pairs(text, pairs);
}

// The value that the key had, and the pairs without it.
fn add_removed(text: &mut Text, key: Value, mut pairs: Pairs)
    requires { IsTrue (are_pairs pairs) }
{
    add_optional(text, pairs.remove_key(&key).as_ref());
    text.add(" of ");
    add_pairs(text, pairs);
}

// The result of a call on a key and pairs.
fn add_call(text: &mut Text, call: &str, key: Value, pairs: Pairs)
    requires { IsTrue (are_pairs pairs) }
{
    match call {
        "find" => add_optional(text, pairs.find(&key)),
        "contains" => add_value(text, &Value::Bool(pairs.contains_key(&key))),
        "put" => add_put(text, key, pairs),
        "write" => add_written(text, key, pairs),
        "remove" => add_removed(text, key, pairs),
        _ => add_pairs(text, pairs),
    }
}

// Calls on a key and pairs.
struct Calls;

impl Answers for Calls {
    fn answer(&self, alloc: Global, text: &str) -> Result<String, AllocError> {
        let (front, words) = text.split_once(" in ").unwrap_or((text, ""));
        let (call, word) = cut(front);
        let mut shown = Text::new(alloc);
        match pairs_of(alloc, words) {
            Ok(pairs) => add_call(&mut shown, call, key(word), pairs),
            Err(NoMemory) => shown.add("memory"),
        }
        shown.finish()
    }
}

const ROWS: &str = r#"
# A value is found at its key
find 1 in 5:50 1:10 9:90 3:30 => 10
contains 1 in 5:50 1:10 9:90 3:30 => true
find 3 in 5:50 1:10 9:90 3:30 => 30
contains 3 in 5:50 1:10 9:90 3:30 => true
find 5 in 5:50 1:10 9:90 3:30 => 50
contains 5 in 5:50 1:10 9:90 3:30 => true
find 9 in 5:50 1:10 9:90 3:30 => 90
contains 9 in 5:50 1:10 9:90 3:30 => true
find 0 in 5:50 1:10 9:90 3:30 => none
contains 0 in 5:50 1:10 9:90 3:30 => false
find 4 in 5:50 1:10 9:90 3:30 => none
contains 4 in 5:50 1:10 9:90 3:30 => false
find 10 in 5:50 1:10 9:90 3:30 => none
contains 10 in 5:50 1:10 9:90 3:30 => false
find 1 in  => none
contains 1 in  => false
# A key of another type is not found
find false in  => none
find false in 5:50 0:10 => none

# Pairs stand by ascending key
all 0 in 5:50 1:10 3:30 => {1: 10, 3: 30, 5: 50}
all 0 in 1:10 3:30 5:50 => {1: 10, 3: 30, 5: 50}
all 0 in 9:90 5:50 -1:0 => {-1: 0, 5: 50, 9: 90}

# A value is replaced at its key by 7
put 1 in 1:10 3:30 5:50 => {1: 7, 3: 30, 5: 50}
write 1 in 1:10 3:30 5:50 => {1: 7, 3: 30, 5: 50}
put 3 in 1:10 3:30 5:50 => {1: 10, 3: 7, 5: 50}
write 3 in 1:10 3:30 5:50 => {1: 10, 3: 7, 5: 50}
put 5 in 1:10 3:30 5:50 => {1: 10, 3: 30, 5: 7}
write 5 in 1:10 3:30 5:50 => {1: 10, 3: 30, 5: 7}
# An absent key lends no place
write 0 in 1:10 3:30 => none
write 2 in 1:10 3:30 => none
write 4 in 1:10 3:30 => none

# A key is removed with its value
remove 1 in 1:10 3:30 5:50 => 10 of {3: 30, 5: 50}
remove 3 in 1:10 3:30 5:50 => 30 of {1: 10, 5: 50}
remove 5 in 1:10 3:30 5:50 => 50 of {1: 10, 3: 30}
remove 0 in 1:10 3:30 5:50 => none of {1: 10, 3: 30, 5: 50}
remove 2 in 1:10 3:30 5:50 => none of {1: 10, 3: 30, 5: 50}
remove 6 in 1:10 3:30 5:50 => none of {1: 10, 3: 30, 5: 50}
remove 1 in  => none of {}
"#;

#[test]
fn pairs_are_found_and_changed_at_their_keys(rt: HostRuntime) -> Result<(), Untrue> {
    expect(rt.alloc(), &Calls, &[ROWS])
}

// The even keys below 2,000, each with its half, put in a mixed order.
fn even_keys(alloc: Global) -> Result<Pairs, NoMemory>
    ensures { IfOk result (λ ps. IsTrue (are_pairs ps)) }
{
    let mut pairs = SegmentedList::new(alloc);
    for i in 0..1000u32 {
        let key = i128::from(i * 7 % 1000);
        pairs.put(Value::Int(2 * key), Value::Int(key))?;
    }
    Ok(pairs)
}

// Whether twice a number has the number as its value, and the next key isn't there.
fn is_found(pairs: &Pairs, number: u32) -> bool
    requires { IsTrue (are_pairs pairs.now) }
{
    let number = i128::from(number);
    let Some(Value::Int(half)) = pairs.find(&Value::Int(2 * number)) else {
        return false;
    };
    *half == number && !pairs.contains_key(&Value::Int(2 * number + 1))
}

// Whether each number below 1,000 is found so.
fn are_found(pairs: &Pairs) -> bool
    requires { IsTrue (are_pairs pairs.now) }
{
    for number in 0..1000u32 {
        if !is_found(pairs, number) {
            return false;
        }
    }
    true
}

#[test]
fn each_of_a_thousand_keys_is_found(rt: HostRuntime) -> Result<(), NoMemory> {
    let pairs = even_keys(rt.alloc())?;
    assert!(rt; pairs.len() == 1000 && are_found(&pairs));
    Ok(())
}
