//! How long insertions into windows take: 1,000,000 tuples of two numbers come under KEYS keys in turn, or
//! under the empty key where KEYS is 0. The words are KIND, SIZE and KEYS, and KIND is
//!
//! - `none`: the tuples and keys are made and dropped;
//! - `count`: they come into a sliding window of SIZE tuples;
//! - `tumbling`: into a tumbling one of SIZE tuples;
//! - `rising`: into a sliding delta of SIZE, with an attribute that rises by one from tuple to tuple;
//! - `mixed`: the same, where every second number is a little lower;
//! - `punct`: into a window that markers flush, which come after every SIZE tuples.
//!
//! The nanoseconds of a tuple are printed.
ghost use Rattle.std.specs.Prelude.{◌<◌, IfSome};
ghost use Rattle.window_policy.specs.Answers.{IsAllowed};

use language_model::{Policy, WindowRule};
use spl_value::{Items, NoMemory, Value, Values};
use std::alloc::Global;
use std::io;
use std::time::Instant;
use window_policy::Window;

const TUPLES: u64 = 1_000_000;

fn rule_of(kind: &str, size: u64) -> Option<WindowRule>
    ensures { IfSome result (λ rule. IsAllowed rule) }
{
    match kind {
        "count" => Some(WindowRule::SlidingCount {
            keep: size,
            every: None,
        }),
        "tumbling" if size > 0 => Some(WindowRule::TumblingCount(size)),
        "rising" | "mixed" => Some(WindowRule::SlidingDelta {
            attr: 0,
            limit: size as i128,
            every: None,
        }),
        "punct" => Some(WindowRule::TumblingPunct),
        _ => None,
    }
}

fn values(alloc: Global, numbers: &[u64]) -> Result<Values, NoMemory> {
    let mut values = Items::with_capacity(alloc, numbers.len())?;
    for number in numbers {
        values.push(Value::Int(*number as i128))?;
    }
    Ok(values)
}

// The key of the tuple of a number.
fn key_of(alloc: Global, number: u64, keys: u64) -> Result<Values, NoMemory> {
    if keys == 0 {
        return Ok(Items::new(alloc));
    }
    values(alloc, &[number % keys])
}

// The tuple of a number. Every second one is lower where they are mixed.
fn tuple_of(alloc: Global, number: u64, is_mixed: bool) -> Result<Values, NoMemory> {
    let lower = if is_mixed && number % 2 == 1 { 7 } else { 0 };
    values(alloc, &[number.saturating_sub(lower), number])
}

fn let_go(alloc: Global, keys: u64) -> Result<(), NoMemory> {
    for number in 0..TUPLES {
        let _ = key_of(alloc, number, keys)?;
        let _ = tuple_of(alloc, number, false)?;
    }
    Ok(())
}

fn insert_one(
    alloc: Global,
    window: &mut Window,
    number: u64,
    keys: u64,
    is_mixed: bool,
) -> Result<(), NoMemory> {
    let key = key_of(alloc, number, keys)?;
    let tuple = tuple_of(alloc, number, is_mixed)?;
    let _ = window.insert(&key, tuple)?;
    Ok(())
}

// A marker after each `marks` tuples, where that isn't 0.
fn mark(window: &mut Window, number: u64, marks: u64) -> Result<(), NoMemory> {
    if marks > 0 && number % marks == marks - 1 {
        let _ = window.mark()?;
    }
    Ok(())
}

fn insert_all(
    alloc: Global,
    policy: &Policy,
    is_mixed: bool,
    marks: u64,
    keys: u64,
) -> Result<(), NoMemory>
    requires { IsAllowed policy.now.rule }
{
    let mut window = Window::new(alloc, policy)?;
    for number in 0..TUPLES {
        insert_one(alloc, &mut window, number, keys, is_mixed)?;
        mark(&mut window, number, marks)?;
    }
    Ok(())
}

fn measure(rt: &HostRuntime, kind: &str, size: u64, keys: u64) -> io::Result<()> {
    let start = Instant::now(rt)?;
    let done = match rule_of(kind, size) {
        Some(rule) => {
            let policy = Policy {
                partitioned: keys > 0,
                rule,
            };
            let marks = if kind == "punct" { size } else { 0 };
            insert_all(rt.alloc(), &policy, kind == "mixed", marks, keys)
        }
        None => let_go(rt.alloc(), keys),
    };
    let nanos = start.elapsed(rt)?.as_nanos() / TUPLES as u128;
    match done {
        Ok(()) => println!(rt; "{kind} {size} over {keys} keys: {nanos} ns"),
        Err(_) => println!(rt; "no memory"),
    }
}

pub(crate) fn measured(rt: &HostRuntime, words: &[String]) -> io::Result<()> {
    match words {
        [kind, size, keys] => match (size.parse::<u64>(), keys.parse::<u64>()) {
            (Ok(size), Ok(keys)) => measure(rt, kind.as_str(), size, keys),
            _ => Ok(()),
        },
        _ => Ok(()),
    }
}
