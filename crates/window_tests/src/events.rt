//! What comes into a window, and what it answers.
//!
//! | Word | What comes | Answer |
//! |---|---|---|
//! | `a:1/2` | a tuple under a key | `.` nothing fires; `[1/2]` a content that leaves; `*[1/2]` one that stays |
//! | `mark` | a window marker | `{a[1/2] b[3]}` each key with its content |
//! | `?a` | nothing: the key's content is looked at | `[1/2]`, or `none` |
use crate::rules::{add_values, values_of, window_of};
use language_model::Tuples;
use spl_value::NoMemory;
use std::alloc::{AllocError, Global};
use test_texts::rows::Answers;
use test_texts::text::Text;
use window_policy::{Content, Fired, Flushed, Window};

fn add_tuples(text: &mut Text, tuples: &Tuples) {
    text.add("[");
    for (at, tuple) in tuples.as_slice().iter().enumerate() {
        text.add_between(at, " ");
        add_values(text, tuple);
    }
    text.add("]");
}

fn add_content(text: &mut Text, content: Option<Content>) {
    let Some(content) = content else {
        text.add("none");
        return;
    };
    text.add("[");
    for i in 0..content.len() {
        text.add_between(i as usize, " ");
        add_values(text, content.at(i));
    }
    text.add("]");
}

fn add_flushed(text: &mut Text, flushed: &Flushed) {
    text.add("{");
    for (at, one) in flushed.as_slice().iter().enumerate() {
        text.add_between(at, " ");
        add_values(text, &one.key);
        add_tuples(text, &one.tuples);
    }
    text.add("}");
}

fn insert(
    alloc: Global,
    window: &mut Window,
    text: &mut Text,
    key: &str,
    tuple: &str,
) -> Result<(), NoMemory> {
    let key = values_of(alloc, key)?;
    match window.insert(&key, values_of(alloc, tuple)?)? {
        Fired::No => text.add("."),
        Fired::Whole(tuples) => add_tuples(text, &tuples),
        Fired::Stays => {
            text.add("*");
            add_content(text, window.content(&key));
        }
    }
    Ok(())
}

fn happen(
    alloc: Global,
    window: &mut Window,
    text: &mut Text,
    event: &str,
) -> Result<(), NoMemory> {
    if let Some((key, tuple)) = event.split_once(':') {
        return insert(alloc, window, text, key, tuple);
    }
    match event.strip_prefix("?") {
        Some(key) => add_content(text, window.content(&values_of(alloc, key)?)),
        None => add_flushed(text, &window.mark()?),
    }
    Ok(())
}

fn happen_all(
    alloc: Global,
    window: &mut Window,
    text: &mut Text,
    events: &str,
) -> Result<(), NoMemory> {
    for (at, event) in events.split_whitespace().enumerate() {
        text.add_between(at, " ");
        happen(alloc, window, text, event)?;
    }
    Ok(())
}

fn answers(alloc: Global, rule: &str, events: &str) -> Result<Text, NoMemory> {
    let mut text = Text::new(alloc);
    match window_of(alloc, rule, true)? {
        Some(mut window) => happen_all(alloc, &mut window, &mut text, events)?,
        None => text.add("no rule"),
    }
    Ok(text)
}

/// The answers of a window, whose rule stands in front of ` | ` and what comes after it.
pub(crate) struct Windows;

impl Answers for Windows {
    fn answer(&self, alloc: Global, text: &str) -> Result<String, AllocError> {
        let (rule, events) = text.split_once(" | ").unwrap_or((text, ""));
        match answers(alloc, rule, events) {
            Ok(text) => text.finish(),
            Err(NoMemory) => "no memory".to_string(alloc),
        }
    }
}
