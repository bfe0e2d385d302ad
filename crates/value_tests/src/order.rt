//! The order of values, and the laws.
use crate::words::values_of;
use builtin_calls::{calls_law, values_law};
use spl_value::{
    NoMemory, Value, copy_value, default_law, key_law, key_on_literals, order, order_law,
    pairs_law, same, wrap_law,
};
use std::alloc::{AllocError, Global};
use std::cmp::Ordering;
use test_texts::rows::{Untrue, no_others};
use test_texts::text::Text;

// Each is below all that follow it.
const ASCENDING: &str = r#"
-9223372036854775808
-1
0
18446744073709551615
false
true
text
text 97
text 97 0
text 97 98
text 98
text 127
text 128
list
list 1
list 1 9
list 2
nested 7
nested 8
map
map 1:5
map 1:6
map 1:6 2:0
map 2:0
tuple
tuple 0 3
tuple 1 2
"#;

// Whether a value and a copy of another one are in this order, and the same where they tie.
fn are_ordered(alloc: Global, a: &Value, b: &Value, wanted: Ordering) -> bool {
    match copy_value(alloc, b) {
        Ok(copied) => order(a, &copied) == wanted && same(a, &copied) == wanted.is_eq(),
        Err(NoMemory) => false,
    }
}

// Adds the places where values aren't ordered with that at one place as the places are.
fn add_disorder(alloc: Global, text: &mut Text, values: &[Value], i: usize, a: &Value) {
    for (j, b) in values.iter().enumerate() {
        if !are_ordered(alloc, a, b, i.cmp(&j)) {
            text.add_number(i as i128);
            text.add(" and ");
            text.add_number(j as i128);
            text.add("; ");
        }
    }
}

// The pairs of places whose values aren't ordered as the places.
fn disorder(alloc: Global, values: &[Value]) -> Result<String, AllocError> {
    let mut text = Text::new(alloc);
    if values.is_empty() {
        text.add("no values");
    }
    for (i, a) in values.iter().enumerate() {
        add_disorder(alloc, &mut text, values, i, a);
    }
    text.finish()
}

#[test]
fn values_have_an_order_and_are_the_same_where_they_tie(rt: HostRuntime) -> Result<(), Untrue> {
    let values = values_of(rt.alloc(), ASCENDING)?;
    no_others(disorder(rt.alloc(), values.as_slice())?)
}

#[test]
fn the_laws_are_called(_: HostRuntime) {
    order_law();
    default_law();
    pairs_law();
    wrap_law();
    key_law();
    key_on_literals();
    calls_law();
    values_law();
}
