//! Copies, lists and boxes.
use crate::words::values_of;
use spl_value::{
    Boxed, Fault, FaultKind, Item, Items, NoMemory, Value, Values, copy_item, copy_values,
};
use std::alloc::{AllocError, Global};
use test_texts::rows::{Answers, Untrue, expect};
use test_texts::text::Text;
use test_texts::values::{add_value, fault};
use test_texts::words::{cut, number};

// A value of each kind.
const VALUES: &str = r#"
-7
true
text 97
list 1 2
map 1:0
tuple 3
"#;

fn add_copied_values(alloc: Global, text: &mut Text, values: Result<Values, AllocError>) {
    let Ok(values) = values else {
        return text.add("no memory");
    };
    match copy_values(alloc, values.as_slice()) {
        Ok(copied) => add_value(text, &Value::Tuple(copied)),
        Err(NoMemory) => text.add("no memory"),
    }
}

// A marker, a fault, or a tuple of one value.
fn item_of(alloc: Global, words: &str) -> Result<Item, AllocError> {
    match words {
        "window" => Ok(Item::Window),
        "final" => Ok(Item::Final),
        "bad" => Ok(Item::Bad(Fault {
            op: 3,
            kind: FaultKind::BadRow,
            line: 12,
        })),
        _ => Ok(Item::Tuple(values_of(alloc, words)?)),
    }
}

fn add_item(text: &mut Text, item: &Item) {
    match item {
        Item::Tuple(values) => {
            for value in values.as_slice() {
                add_value(text, value);
            }
        }
        Item::Window => text.add("window"),
        Item::Final => text.add("final"),
        Item::Bad(bad) => {
            text.add(fault(bad.kind));
            text.add_place(" of ", bad.op);
            text.add(" at ");
            text.add_number(i128::from(bad.line));
        }
    }
}

fn add_copied(alloc: Global, text: &mut Text, item: Result<Item, AllocError>) {
    let Ok(item) = item else {
        return text.add("no memory");
    };
    match copy_item(alloc, &item) {
        Ok(copied) => add_item(text, &copied),
        Err(NoMemory) => text.add("no memory"),
    }
}

// A list of 11, 21, 30, 40 and 50.
fn made(alloc: Global) -> Result<Items<u32>, AllocError> {
    let mut items = Items::from_slice(alloc, &[10u32, 30])?;
    items.insert(1, 20)?;
    items.set(0, 11);
    *items.item_mut(1) += 1;
    items.append(Items::from_slice(alloc, &[40, 50])?)?;
    Ok(items)
}

fn add_number(text: &mut Text, item: Option<&u32>) {
    match item {
        Some(item) => text.add_place(" ", *item),
        None => text.add(" none"),
    }
}

// What a list of five has at the places 1 and 5, what is removed at 1, the last one, and the others.
fn add_changed(text: &mut Text, items: Result<Items<u32>, AllocError>) {
    let Ok(mut items) = items else {
        return text.add("no memory");
    };
    text.add("has");
    add_number(text, items.get(1));
    add_number(text, items.get(5));
    if items.len() == 5 {
        text.add_place(" ", items.remove(1));
    }
    add_number(text, items.pop().as_ref());
    text.add(" of");
    for item in items.into_vec().as_slice() {
        text.add_place(" ", *item);
    }
}

// Whether a list of that many items is empty once it is cleared.
fn is_cleared(alloc: Global, count: u32) -> Result<bool, AllocError> {
    let mut items = Items::new(alloc);
    for item in 0..count {
        items.push(item)?;
    }
    items.clear();
    Ok(items.is_empty())
}

// Whether a list has the room that is asked for.
fn has_room(alloc: Global, room: u32) -> Result<bool, AllocError> {
    let items: Items<u32> = Items::with_capacity(alloc, room as usize)?;
    Ok(items.into_vec().capacity() >= room as usize)
}

fn add_truth(text: &mut Text, truth: Result<bool, AllocError>) {
    text.add(match truth {
        Ok(true) => "true",
        Ok(false) => "false",
        Err(_) => "no memory",
    });
}

fn add_boxed(alloc: Global, text: &mut Text, value: u32) {
    match Boxed::new(alloc, value) {
        Ok(boxed) => {
            text.add_place("", *boxed.get());
            text.add_place(" ", boxed.into_inner());
        }
        Err(_) => text.add("no memory"),
    }
}

// Calls on lists and boxes, and copies of values and of an item.
struct Calls;

impl Answers for Calls {
    fn answer(&self, alloc: Global, text: &str) -> Result<String, AllocError> {
        let (call, rest) = cut(text);
        let mut shown = Text::new(alloc);
        match call {
            "changed" => add_changed(&mut shown, made(alloc)),
            "boxed" => add_boxed(alloc, &mut shown, number(rest)),
            "cleared" => add_truth(&mut shown, is_cleared(alloc, number(rest))),
            "room" => add_truth(&mut shown, has_room(alloc, number(rest))),
            "copied" => add_copied(alloc, &mut shown, item_of(alloc, rest)),
            _ => add_copied_values(alloc, &mut shown, values_of(alloc, VALUES)),
        }
        shown.finish()
    }
}

const ROWS: &str = r#"
values => <-7, true, 'a', [1, 2], {1: 0}, <3>>
copied map 2:5 => {2: 5}
copied window => window
copied final => final
copied bad => BadRow of 3 at 12
changed => has 21 none 21 50 of 11 30 40
cleared 0 => true
cleared 1 => true
cleared 2 => true
room 5 => true
boxed 7 => 7 7
"#;

#[test]
fn lists_and_boxes_answer_as_their_rows_say(rt: HostRuntime) -> Result<(), Untrue> {
    expect(rt.alloc(), &Calls, &[ROWS])
}
