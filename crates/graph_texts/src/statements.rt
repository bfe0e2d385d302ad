//! Statements as texts.
//!
//! | Text | Statement |
//! |---|---|
//! | `(put v1 5)` | an assignment to the variable at place 1; the right side of a compound one is whole |
//! | `(append v6 1)`, `(remove v8 'a')`, `(clear v6)` | a call that changes a place |
//! | `(evaluate (size v6))` | a built-in call whose value isn't used |
//! | `(f2 1)` | a call of the function at place 2 |
//!
//! All others are `another statement`.
use crate::codes::{add_code, add_codes, add_takings};
use spl_tree::{Change, Code, Place, Slot, Statement};
use test_texts::text::Text;

// A place that is changed.
fn add_target(text: &mut Text, place: &Place) {
    if place.takings.is_empty() {
        text.add_place("v", place.variable);
        return;
    }
    text.add_place("(of v", place.variable);
    add_takings(text, place.takings.as_slice());
}

// A code after a word, and the end of the statement.
fn add_with(text: &mut Text, word: &str, code: &Code<Slot>) {
    text.add(word);
    add_code(text, code);
    text.add(")");
}

fn add_change(text: &mut Text, place: &Place, change: &Change<Code<Slot>>) {
    match change {
        Change::Put(_) => text.add("(put "),
        Change::Append(_) => text.add("(append "),
        Change::Remove(_) => text.add("(remove "),
        Change::Clear => text.add("(clear "),
    }
    add_target(text, place);
    match change {
        Change::Put(code) | Change::Append(code) | Change::Remove(code) => {
            add_with(text, " ", code);
        }
        Change::Clear => text.add(")"),
    }
}

/// Adds a statement.
pub fn add_statement(text: &mut Text, statement: &Statement) {
    match statement {
        Statement::Change(place, change) => add_change(text, place, change),
        Statement::Evaluate(code) => add_with(text, "(evaluate ", code),
        Statement::Call(place, arguments) => {
            text.add_place("(f", *place);
            add_codes(text, arguments.as_slice());
        }
        _ => text.add("another statement"),
    }
}
