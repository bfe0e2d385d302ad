//! What comes into a running window, and what it answers.
//!
//! A row has a rule, folds and events, with ` | ` between them. The folds are `sum` with a kind (`sum8`, `sumu8`,
//! `sum64`), `min`, `max`, `first`, `last` and `count`.
//!
//! | Word | What comes | Answer |
//! |---|---|---|
//! | `a:1+2/3` | a tuple under a key, and the values of the arguments; without them each is the tuple's first value | `.` nothing fires; `[5/6 of 1]` the answers and the last tuple |
//! | `mark` | a window marker | `{a[5/6 of 1]}` each key with its answers |
ghost use Rattle.std.specs.Prelude.{IfSome};
ghost use Rattle.window_policy.specs.Answers.{IsAllowed};
ghost use Rattle.window_policy.specs.Running.{IsSummable};

use crate::rules::{add_values, rule_of, values_of};
use language_model::{Collector, Policy, WindowRule};
use spl_value::{IntKind, Items, NoMemory, Values, copy_value};
use std::alloc::{AllocError, Global};
use test_texts::rows::Answers;
use test_texts::text::Text;
use window_policy::{Folds, Running, Summed, SummedList};

// A rule, where a running window may have it.
pub(crate) fn summable(rule: WindowRule) -> Option<WindowRule>
    requires { IsAllowed rule }
    ensures { IfSome result (λ rule. IsSummable rule) }
{
    match rule {
        WindowRule::TumblingCount(count) => Some(WindowRule::TumblingCount(count)),
        WindowRule::TumblingDelta { attr, limit } => {
            Some(WindowRule::TumblingDelta { attr, limit })
        }
        WindowRule::TumblingPunct => Some(WindowRule::TumblingPunct),
        WindowRule::SlidingCount { keep, every } => {
            if keep == 0 {
                return None;
            }
            Some(WindowRule::SlidingCount { keep, every })
        }
        WindowRule::SlidingDelta { .. } => None,
    }
}

/// A new running window of the rule of words, if they are one that it may have.
pub(crate) fn running_of(
    alloc: Global,
    words: &str,
    folds: &Folds,
) -> Result<Option<Running>, NoMemory> {
    let Some(rule) = rule_of(words) else {
        return Ok(None);
    };
    let Some(rule) = summable(rule) else {
        return Ok(None);
    };
    let policy = Policy {
        partitioned: true,
        rule,
    };
    let running = Running::new(alloc, &policy, folds)?;
    Ok(Some(running))
}

fn fold_of(word: &str) -> Collector {
    match word {
        "sum8" => Collector::Sum(IntKind::I8),
        "sumu8" => Collector::Sum(IntKind::U8),
        "sum64" => Collector::Sum(IntKind::I64),
        "min" => Collector::Min,
        "max" => Collector::Max,
        "first" => Collector::First,
        "last" => Collector::Last,
        _ => Collector::Count,
    }
}

fn folds_of(alloc: Global, words: &str) -> Result<Folds, NoMemory> {
    let mut folds = Items::new(alloc);
    for word in words.split_whitespace() {
        folds.push(fold_of(word))?;
    }
    Ok(folds)
}

// A value of each argument: those that are spelled, or the tuple's first value for each.
fn arguments(
    alloc: Global,
    folds: usize,
    tuple: &Values,
    spelled: Option<&str>,
) -> Result<Values, NoMemory> {
    if let Some(spelled) = spelled {
        return Ok(values_of(alloc, spelled)?);
    }
    let mut args = Items::new(alloc);
    for _ in 0..folds {
        if let Some(value) = tuple.get(0) {
            args.push(copy_value(alloc, value)?)?;
        }
    }
    Ok(args)
}

/// Adds the answers and the last tuple.
pub(crate) fn add_summed(text: &mut Text, summed: &Summed) {
    text.add("[");
    add_values(text, &summed.answers);
    text.add(" of ");
    add_values(text, &summed.last);
    text.add("]");
}

pub(crate) fn add_list(text: &mut Text, list: &SummedList) {
    text.add("{");
    for (at, one) in list.as_slice().iter().enumerate() {
        text.add_between(at, " ");
        add_values(text, &one.key);
        add_summed(text, &one.summed);
    }
    text.add("}");
}

fn happen(
    alloc: Global,
    running: &mut Running,
    folds: usize,
    text: &mut Text,
    event: &str,
) -> Result<(), NoMemory> {
    let Some((key, tuple)) = event.split_once(':') else {
        add_list(text, &running.mark()?);
        return Ok(());
    };
    let (tuple, spelled) = match tuple.split_once('+') {
        Some((tuple, spelled)) => (tuple, Some(spelled)),
        None => (tuple, None),
    };
    let tuple = values_of(alloc, tuple)?;
    let args = arguments(alloc, folds, &tuple, spelled)?;
    match running.insert(&values_of(alloc, key)?, tuple, args)? {
        Some(summed) => add_summed(text, &summed),
        None => text.add("."),
    }
    Ok(())
}

fn answers(alloc: Global, rule: &str, folds: &str, events: &str) -> Result<Text, NoMemory> {
    let mut text = Text::new(alloc);
    let folds = folds_of(alloc, folds)?;
    let Some(mut running) = running_of(alloc, rule, &folds)? else {
        text.add("no rule");
        return Ok(text);
    };
    for (at, event) in events.split_whitespace().enumerate() {
        text.add_between(at, " ");
        happen(alloc, &mut running, folds.len(), &mut text, event)?;
    }
    Ok(text)
}

/// The answers of a running window.
pub(crate) struct Sums;

impl Answers for Sums {
    fn answer(&self, alloc: Global, text: &str) -> Result<String, AllocError> {
        let (rule, rest) = text.split_once(" | ").unwrap_or((text, ""));
        let (folds, events) = rest.split_once(" | ").unwrap_or((rest, ""));
        match answers(alloc, rule, folds, events) {
            Ok(text) => text.finish(),
            Err(NoMemory) => "no memory".to_string(alloc),
        }
    }
}
