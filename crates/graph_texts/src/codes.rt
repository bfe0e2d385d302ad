//! Codes as texts.
//!
//! An operator stands in front of its operands, and both in parentheses, as in `(join v5 'a')`.
//!
//! | Text | Code |
//! |---|---|
//! | `5`, `true`, `'ab'` | a literal |
//! | `v3`, `p1` | the variable at place 3, the tuple at the port at place 1 |
//! | `a0.2` | the attribute at place 2 of the port at place 0 |
//! | `(list 1 2)`, `(map 1:'a' 2:'b')` | a list literal, a map literal |
//! | `(tuple 1=5 0=6)` | a tuple literal: places in the tuple and values, in the text's order |
//! | `(of v1 .0 [5] {'a'})` | of `v1` the member at place 0, then an element, then a key's value |
//! | `(unary ! -int32 ~int8 as-int64 as-rstring v1)` | prefixes and casts, the outermost first |
//! | `(+int32 1 2)`, and so `- * / % & ^ \|` | an operator of integers, with their type |
//! | `(join 'a' 'b')` | `+` of texts |
//! | `(< 1 2)`, and so `<= > >= == != && \|\|` | these operators |
//! | `(in-list 1 v6)`, `(in-map 1 v9)` | `in` |
//! | `(? true 1 2)` | the conditional |
//! | `(size v6)`, `(abs-int32 1)` | a built-in call; that of `abs` with its type |
//! | `(f2 1)` | a call of the function at place 2 |
//! | `is-window`, `not-final` | whether the marker is this one, or isn't |
use crate::operators::{add_binary, add_built_in, add_unary, marker_word};
use spl_tree::{Code, Selector, Slot};
use test_texts::text::Text;
use test_texts::values::add_value;

fn add_slot(text: &mut Text, slot: Slot) {
    match slot {
        Slot::Variable(place) => text.add_place("v", place),
        Slot::Attribute { port, attribute } => {
            text.add_place("a", port);
            text.add_place(".", attribute);
        }
        Slot::Port(place) => text.add_place("p", place),
    }
}

/// Adds a code.
#[cycle(code)]
pub fn add_code(text: &mut Text, code: &Code<Slot>) {
    match code {
        Code::Literal(value) => add_value(text, value),
        Code::Name(slot) => add_slot(text, *slot),
        Code::List(elements) => {
            text.add("(list");
            add_codes(text, elements.as_slice());
        }
        Code::Map(entries) => add_entries(text, entries.as_slice()),
        Code::Tuple(fields) => add_fields(text, fields.as_slice()),
        Code::Select(base, takings) => {
            text.add("(of ");
            add_code(text, base.get());
            add_takings(text, takings.as_slice());
        }
        Code::Unary(operators, operand) => {
            text.add("(unary ");
            for operator in operators.as_slice() {
                add_unary(text, *operator);
                text.add(" ");
            }
            add_code(text, operand.get());
            text.add(")");
        }
        Code::Binary(operator, left, right) => {
            text.add("(");
            add_binary(text, *operator);
            text.add(" ");
            add_code(text, left.get());
            text.add(" ");
            add_code(text, right.get());
            text.add(")");
        }
        Code::Conditional(condition, first, second) => {
            text.add("(? ");
            add_code(text, condition.get());
            text.add(" ");
            add_code(text, first.get());
            text.add(" ");
            add_code(text, second.get());
            text.add(")");
        }
        Code::BuiltIn(call, arguments) => {
            add_built_in(text, *call);
            add_codes(text, arguments.as_slice());
        }
        Code::Call(place, arguments) => {
            text.add_place("(f", *place);
            add_codes(text, arguments.as_slice());
        }
        Code::IsMarker(marker) => {
            text.add("is-");
            text.add(marker_word(*marker));
        }
        Code::IsNotMarker(marker) => {
            text.add("not-");
            text.add(marker_word(*marker));
        }
    }
}

/// Adds the last codes in parentheses.
#[cycle(code)]
pub fn add_codes(text: &mut Text, codes: &[Code<Slot>]) {
    for code in codes {
        text.add(" ");
        add_code(text, code);
    }
    text.add(")");
}

#[cycle(code)]
fn add_entries(text: &mut Text, entries: &[(Code<Slot>, Code<Slot>)]) {
    text.add("(map");
    for entry in entries {
        text.add(" ");
        add_code(text, &entry.0);
        text.add(":");
        add_code(text, &entry.1);
    }
    text.add(")");
}

#[cycle(code)]
fn add_fields(text: &mut Text, fields: &[(u32, Code<Slot>)]) {
    text.add("(tuple");
    for field in fields {
        text.add_place(" ", field.0);
        text.add("=");
        add_code(text, &field.1);
    }
    text.add(")");
}

/// Adds what is taken, the last in parentheses.
#[cycle(code)]
pub fn add_takings(text: &mut Text, takings: &[Selector<Code<Slot>>]) {
    for taking in takings {
        match taking {
            Selector::Member(place) => text.add_place(" .", *place),
            Selector::Element(index) => {
                text.add(" [");
                add_code(text, index);
                text.add("]");
            }
            Selector::AtKey(key) => {
                text.add(" {");
                add_code(text, key);
                text.add("}");
            }
        }
    }
    text.add(")");
}
