//! Running windows beside windows that hold whole contents, with the same random tuples.
ghost use Rattle.window_policy.specs.Answers.{IsAllowed};

use crate::rules::add_values;
use crate::sums::{add_list, add_summed, summable};
use language_model::{Collector, Policy, Tuples, WindowRule};
use spl_value::{IntKind, Items, NoMemory, Value, Values, copy_values, wrap};
use std::alloc::{AllocError, Global};
use test_texts::rows::Answers;
use test_texts::text::Text;
use tuple_groups::integer_of;
use window_policy::{Fired, Folds, Running, Window};

// How many attributes a tuple has before the values of its arguments.
const WIDTH: usize = 2;

// A number below `most`.
fn draw(seed: &mut u64, most: u64) -> u64 {
    *seed = seed
        .wrapping_mul(6364136223846793005)
        .wrapping_add(1442695040888963407);
    (*seed >> 33).checked_rem(most).unwrap_or(0)
}

fn some_rule(seed: &mut u64) -> WindowRule
    ensures { IsAllowed result }
{
    match draw(seed, 4) {
        0 => WindowRule::TumblingCount(draw(seed, 5).saturating_add(1)),
        1 => WindowRule::TumblingDelta {
            attr: 0,
            limit: i128::from(draw(seed, 20)),
        },
        2 => WindowRule::TumblingPunct,
        _ => WindowRule::SlidingCount {
            keep: draw(seed, 7).saturating_add(1),
            every: Some(draw(seed, 4).saturating_add(1)),
        },
    }
}

fn some_fold(seed: &mut u64) -> Collector {
    match draw(seed, 7) {
        0 => Collector::Sum(IntKind::I8),
        1 => Collector::Sum(IntKind::U16),
        2 => Collector::Min,
        3 => Collector::Max,
        4 => Collector::First,
        5 => Collector::Last,
        _ => Collector::Count,
    }
}

// Numbers from -150 to 149.
fn some_values(alloc: Global, seed: &mut u64, count: usize) -> Result<Values, NoMemory> {
    let mut values = Items::new(alloc);
    for _ in 0..count {
        values.push(Value::Int(i128::from(draw(seed, 300)).wrapping_sub(150)))?;
    }
    Ok(values)
}

fn number_at(tuple: &Values, place: usize) -> i128 {
    match tuple.get(place) {
        Some(value) => integer_of(value),
        None => 0,
    }
}

// What a fold makes of the values at a place of the tuples of a whole content.
fn folded(fold: Collector, tuples: &Tuples, place: usize) -> i128 {
    let mut made = 0i128;
    for (at, tuple) in tuples.as_slice().iter().enumerate() {
        let n = number_at(tuple, place);
        made = match fold {
            Collector::Sum(_) => made.wrapping_add(n),
            Collector::Count => made.wrapping_add(1),
            Collector::Last => n,
            _ if at == 0 => n,
            Collector::Min if n < made => n,
            Collector::Max if n > made => n,
            _ => made,
        };
    }
    match fold {
        Collector::Sum(kind) => wrap(kind, made),
        _ => made,
    }
}

// The answers of the folds over a whole content, and its last tuple.
fn add_whole(
    alloc: Global,
    text: &mut Text,
    folds: &Folds,
    tuples: &Tuples,
) -> Result<(), NoMemory> {
    text.add("[");
    for (k, fold) in folds.as_slice().iter().enumerate() {
        text.add_between(k, "/");
        text.add_number(folded(*fold, tuples, k.wrapping_add(WIDTH)));
    }
    text.add(" of ");
    if let Some(last) = tuples.as_slice().last() {
        let mut own = copy_values(alloc, last.as_slice())?;
        own.truncate(WIDTH);
        add_values(text, &own);
    }
    text.add("]");
    Ok(())
}

// The content of a key, as tuples of their own.
fn held(alloc: Global, window: &Window, key: &Values) -> Result<Tuples, NoMemory> {
    let mut tuples = Items::new(alloc);
    if let Some(content) = window.content(key) {
        for i in 0..content.len() {
            tuples.push(copy_values(alloc, content.at(i).as_slice())?)?;
        }
    }
    Ok(tuples)
}

fn insert_whole(
    alloc: Global,
    window: &mut Window,
    folds: &Folds,
    text: &mut Text,
    key: &Values,
    tuple: Values,
) -> Result<(), NoMemory> {
    match window.insert(key, tuple)? {
        Fired::No => text.add("."),
        Fired::Whole(tuples) => add_whole(alloc, text, folds, &tuples)?,
        Fired::Stays => add_whole(alloc, text, folds, &held(alloc, window, key)?)?,
    }
    Ok(())
}

fn mark_whole(
    alloc: Global,
    window: &mut Window,
    folds: &Folds,
    text: &mut Text,
) -> Result<(), NoMemory> {
    text.add("{");
    for (at, one) in window.mark()?.as_slice().iter().enumerate() {
        text.add_between(at, " ");
        add_values(text, &one.key);
        add_whole(alloc, text, folds, &one.tuples)?;
    }
    text.add("}");
    Ok(())
}

fn insert_sums(
    running: &mut Running,
    text: &mut Text,
    key: &Values,
    tuple: Values,
    args: Values,
) -> Result<(), NoMemory> {
    match running.insert(key, tuple, args)? {
        Some(summed) => add_summed(text, &summed),
        None => text.add("."),
    }
    Ok(())
}

// An event of both windows.
fn happen(
    alloc: Global,
    seed: &mut u64,
    folds: &Folds,
    window: &mut Window,
    whole: &mut Text,
    running: &mut Running,
    sums: &mut Text,
) -> Result<(), NoMemory> {
    if draw(seed, 8) == 0 {
        mark_whole(alloc, window, folds, whole)?;
        add_list(sums, &running.mark()?);
        return Ok(());
    }
    let mut key = Items::new(alloc);
    key.push(Value::Int(i128::from(draw(seed, 3))))?;
    let tuple = some_values(alloc, seed, WIDTH)?;
    let args = some_values(alloc, seed, folds.len())?;
    let mut wide = copy_values(alloc, tuple.as_slice())?;
    wide.append(copy_values(alloc, args.as_slice())?)?;
    insert_whole(alloc, window, folds, whole, &key, wide)?;
    insert_sums(running, sums, &key, tuple, args)
}

// Whether both windows answer the same in a program of so many events.
fn is_same(alloc: Global, seed: &mut u64, events: u64) -> Result<bool, NoMemory> {
    let rule = some_rule(seed);
    let mut folds = Items::new(alloc);
    for _ in 0..draw(seed, 5).saturating_add(1) {
        folds.push(some_fold(seed))?;
    }
    let partitioned = true;
    let mut window = Window::new(alloc, &Policy { partitioned, rule })?;
    let Some(rule) = summable(rule) else {
        return Ok(false);
    };
    let mut running = Running::new(alloc, &Policy { partitioned, rule }, &folds)?;
    let mut whole = Text::new(alloc);
    let mut sums = Text::new(alloc);
    for _ in 0..events {
        happen(
            alloc,
            seed,
            &folds,
            &mut window,
            &mut whole,
            &mut running,
            &mut sums,
        )?;
    }
    let whole = whole.finish()?;
    let sums = sums.finish()?;
    Ok(whole.as_str() == sums.as_str() && whole.as_str().contains("of"))
}

fn same(alloc: Global, programs: u64, events: u64) -> Result<u64, NoMemory> {
    let mut seed = 20_261_201u64;
    let mut same = 0u64;
    for _ in 0..programs {
        if is_same(alloc, &mut seed, events)? {
            same = same.wrapping_add(1);
        }
    }
    Ok(same)
}

/// Of how many random programs, of so many events each, both windows answer the same and fire.
pub(crate) struct Beside;

impl Answers for Beside {
    fn answer(&self, alloc: Global, text: &str) -> Result<String, AllocError> {
        let (programs, events) = text.split_once(" of ").unwrap_or((text, ""));
        match same(
            alloc,
            programs.parse::<u64>().unwrap_or(0),
            events.parse::<u64>().unwrap_or(0),
        ) {
            Ok(same) => {
                let mut text = Text::new(alloc);
                text.add_number(i128::from(same));
                text.finish()
            }
            Err(NoMemory) => "no memory".to_string(alloc),
        }
    }
}
