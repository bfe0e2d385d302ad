//! Values as texts.
//!
//! | Text | Value |
//! |---|---|
//! | `5`, `true` | an integer, a boolean |
//! | `'ab'` | a text; each byte stands as the character of its number |
//! | `[1, 2]` | a list |
//! | `{1: 'a', 2: 'b'}` | a map, by ascending key |
//! | `<1, 'a'>` | a tuple: its attributes' values |
use crate::text::Text;
use spl_value::{FaultKind, Pairs, Value};

/// Adds a value.
#[cycle(value)]
pub fn add_value(text: &mut Text, value: &Value) {
    match value {
        Value::Int(number) => text.add_number(*number),
        Value::Bool(true) => text.add("true"),
        Value::Bool(false) => text.add("false"),
        Value::Text(bytes) => {
            text.add("'");
            text.add_bytes(bytes.as_slice());
            text.add("'");
        }
        Value::List(values) => {
            text.add("[");
            add_values(text, values.as_slice());
            text.add("]");
        }
        Value::Map(pairs) => {
            text.add("{");
            add_pairs(text, pairs);
            text.add("}");
        }
        Value::Tuple(values) => {
            text.add("<");
            add_values(text, values.as_slice());
            text.add(">");
        }
    }
}

#[cycle(value)]
fn add_values(text: &mut Text, values: &[Value]) {
    for (at, value) in values.iter().enumerate() {
        text.add_between(at, ", ");
        add_value(text, value);
    }
}

#[cycle(value)]
fn add_pairs(text: &mut Text, pairs: &Pairs) {
    let mut written = 0;
    for pair in pairs {
        text.add_between(written, ", ");
        add_value(text, &pair.0);
        text.add(": ");
        add_value(text, &pair.1);
        written = 1;
    }
}

/// The name of a fault.
pub fn fault(kind: FaultKind) -> &'static str {
    match kind {
        FaultKind::DivZero => "DivZero",
        FaultKind::Index => "Index",
        FaultKind::NoKey => "NoKey",
        FaultKind::Turns => "Turns",
        FaultKind::BadRow => "BadRow",
        FaultKind::LongRow => "LongRow",
        FaultKind::LongFile => "LongFile",
        FaultKind::ReadFailed => "ReadFailed",
    }
}

const KINDS: [FaultKind; 8] = [
    FaultKind::DivZero,
    FaultKind::Index,
    FaultKind::NoKey,
    FaultKind::Turns,
    FaultKind::BadRow,
    FaultKind::LongRow,
    FaultKind::LongFile,
    FaultKind::ReadFailed,
];

/// The fault that has this name; what names none gives that of turns.
pub fn fault_named(name: &str) -> FaultKind {
    for kind in KINDS {
        if fault(kind) == name {
            return kind;
        }
    }
    FaultKind::Turns
}
