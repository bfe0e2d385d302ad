//! Many tuples and many keys.
use crate::rules::{add_values, window_of};
use spl_value::{Items, NoMemory, Value, Values};
use std::alloc::{AllocError, Global};
use test_texts::rows::Answers;
use test_texts::text::Text;
use window_policy::{Fired, Flushed, Window};

fn one(alloc: Global, number: u64) -> Result<Values, NoMemory> {
    let mut values = Items::new(alloc);
    values.push(Value::Int(i128::from(number)))?;
    Ok(values)
}

// How often a window fires, and with how many tuples that leave it, where the numbers below `tuples` come.
fn fill(alloc: Global, window: &mut Window, tuples: u64) -> Result<(u64, u64), NoMemory> {
    let mut fires = 0u64;
    let mut gone = 0u64;
    for number in 0..tuples {
        match window.insert(&Items::new(alloc), one(alloc, number)?)? {
            Fired::No => {}
            Fired::Whole(tuples) => {
                fires = fires.wrapping_add(1);
                gone = gone.wrapping_add(tuples.len() as u64);
            }
            Fired::Stays => fires = fires.wrapping_add(1),
        }
    }
    Ok((fires, gone))
}

// How many tuples a window holds, with the first and the last one.
fn add_held(text: &mut Text, window: &Window, key: &Values) {
    let Some(content) = window.content(key) else {
        return;
    };
    let len = content.len();
    text.add_number(i128::from(len));
    if len > 0 {
        text.add(" from ");
        add_values(text, content.at(0));
        text.add(" to ");
        add_values(text, content.at(len - 1));
    }
}

fn add_filled(
    alloc: Global,
    text: &mut Text,
    window: &mut Window,
    tuples: u64,
) -> Result<(), NoMemory> {
    let (fires, gone) = fill(alloc, window, tuples)?;
    text.add("fires ");
    text.add_number(i128::from(fires));
    text.add(", lets go of ");
    text.add_number(i128::from(gone));
    text.add(", holds ");
    add_held(text, window, &Items::new(alloc));
    Ok(())
}

fn filled(alloc: Global, rule: &str, tuples: u64) -> Result<Text, NoMemory> {
    let mut text = Text::new(alloc);
    match window_of(alloc, rule, false)? {
        Some(mut window) => add_filled(alloc, &mut text, &mut window, tuples)?,
        None => text.add("no rule"),
    }
    Ok(text)
}

/// What becomes of a number of tuples in a window, whose rule stands in front of ` | `.
pub(crate) struct Tuples;

impl Answers for Tuples {
    fn answer(&self, alloc: Global, text: &str) -> Result<String, AllocError> {
        let (rule, tuples) = text.split_once(" | ").unwrap_or((text, ""));
        match filled(alloc, rule, tuples.parse::<u64>().unwrap_or(0)) {
            Ok(text) => text.finish(),
            Err(NoMemory) => "no memory".to_string(alloc),
        }
    }
}

fn are_ascending(flushed: &Flushed) -> bool {
    let mut above = 0i128;
    for one in flushed.as_slice() {
        match one.key.as_slice() {
            [Value::Int(n)] if *n == above => above = above.wrapping_add(1),
            _ => return false,
        }
    }
    true
}

// A tuple under each of `keys` keys, in another order.
fn insert_keys(alloc: Global, window: &mut Window, keys: u64) -> Result<(), NoMemory> {
    for number in 0..keys {
        let key = number.wrapping_mul(7919).checked_rem(keys).unwrap_or(0);
        let _ = window.insert(&one(alloc, key)?, one(alloc, number)?)?;
    }
    Ok(())
}

// Two markers, and what is then held for a key that came.
fn add_marks(alloc: Global, text: &mut Text, window: &mut Window) -> Result<(), NoMemory> {
    let first = window.mark()?;
    text.add_number(first.len() as i128);
    text.add(if are_ascending(&first) {
        " ascending, then "
    } else {
        " in another order, then "
    });
    text.add_number(window.mark()?.len() as i128);
    text.add(", holds ");
    add_held(text, window, &one(alloc, 1)?);
    Ok(())
}

fn add_keys(
    alloc: Global,
    text: &mut Text,
    window: &mut Window,
    keys: u64,
) -> Result<(), NoMemory> {
    insert_keys(alloc, window, keys)?;
    add_marks(alloc, text, window)
}

// `keys` keys, and then two markers.
fn flushed(alloc: Global, keys: u64) -> Result<Text, NoMemory> {
    let mut text = Text::new(alloc);
    if let Some(mut window) = window_of(alloc, "tumbling punct", true)? {
        add_keys(alloc, &mut text, &mut window, keys)?;
    }
    Ok(text)
}

/// What markers flush of a number of keys.
pub(crate) struct Keys;

impl Answers for Keys {
    fn answer(&self, alloc: Global, text: &str) -> Result<String, AllocError> {
        match flushed(alloc, text.parse::<u64>().unwrap_or(0)) {
            Ok(text) => text.finish(),
            Err(NoMemory) => "no memory".to_string(alloc),
        }
    }
}
