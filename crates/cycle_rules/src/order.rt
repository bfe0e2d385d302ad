//! The operators of a graph in topological order, and those that have no place in it.
ghost use Rattle.std.specs.Prelude.{◌≡◌, ◌<◌, false, length, map, slice_get, slice_index_or, IfOk, IfSome};
ghost use Rattle.std.specs.List.{concat};
ghost use Rattle.std.specs.Option.{option_map};
ghost use Rattle.language_model.specs.Taking.{taken, is_taken, first_untaken};
ghost use Rattle.cycle_rules.specs.steps.Makers.{covers_from, covers_all, Adds, AreMakers, AreRows, first_ready};

use spl_tree::{Op, Stream};
use spl_value::{Ids, Items, NoMemory};
use std::alloc::Global;

/// For each operator whether it makes one of the streams that another takes. None where one of these
/// is made by no operator: then the other is never ready.
type Makers = Option<Items<bool>>;

/// The numbers of the operators, each after those that make its streams: again and again the first
/// that is ready, as long as there is one.
pub fn topological_order(alloc: Global, streams: &[Stream], ops: &[Op]) -> Result<Ids, NoMemory>
    ensures { IfOk result (λ order. order ≡ taken streams.now ops.now) }
{
    let made = rows(alloc, streams, ops)?;
    let rows = made.as_slice();
    let mut flags = vec![in alloc; false; ops.len()]?;
    let mut order = Ids::new(alloc);
    'rounds: while order.len() < ops.len() {
        let Some(next) = next_ready(rows, &flags) else {
            return Ok(order);
        };
        // More operators than have a number of 32 bits aren't in memory.
        let Ok(number) = u32::try_from(next) else {
            return Err(NoMemory);
        };
        flags[next] = true;
        order.push(number)?;
    }
    Ok(order)
}

/// The first of `count` operators that isn't in an order.
pub fn first_outside(order: &[u32], count: usize) -> Option<usize>
    ensures { result ≡ first_untaken order.now 0 count }
{
    for number in 0..count {
        if !is_among(order, number) {
            return Some(number);
        }
    }
    None
}

fn is_among(numbers: &[u32], number: usize) -> bool
    ensures { result ≡ is_taken numbers.now number }
{
    numbers.iter().any(|n| *n as usize == number)
}

/// A row for each operator. Each of its connections is looked at here once, however many they are.
fn rows(alloc: Global, streams: &[Stream], ops: &[Op]) -> Result<Items<Makers>, NoMemory>
    ensures { IfOk result (λ rows. AreRows streams.now (length ops.now) ops.now rows) }
{
    let mut rows = Items::new(alloc);
    for op in ops {
        let row = makers(alloc, streams, op.ins.as_slice(), ops.len())?;
        rows.push(row)?;
    }
    Ok(rows)
}

/// Which of `count` operators make the streams of these ports.
fn makers(
    alloc: Global,
    streams: &[Stream],
    ports: &[Ids],
    count: usize,
) -> Result<Makers, NoMemory>
    ensures { IfOk result (AreMakers streams.now count (concat ports.now)) }
{
    let mut row = vec![in alloc; false; count]?;
    if add_all_makers(streams, ports, &mut row) {
        Ok(Some(Items::from_vec(row)))
    } else {
        Ok(None)
    }
}

/// Adds the operators that make the streams of these ports to a row. False where one is made by none.
fn add_all_makers(streams: &[Stream], ports: &[Ids], row: &mut [bool]) -> bool
    ensures { Adds streams.now (concat ports.now) row.old row.new result }
{
    for port in ports {
        if !add_makers(streams, port.as_slice(), row) {
            return false;
        }
    }
    true
}

/// Adds the operators that make these streams to a row. False where one is made by none.
fn add_makers(streams: &[Stream], numbers: &[u32], row: &mut [bool]) -> bool
    ensures { Adds streams.now numbers.now row.old row.new result }
{
    for number in numbers {
        let Some(maker) = maker_of(streams, *number) else {
            return false;
        };
        if maker >= row.len() {
            return false;
        }
        row[maker] = true;
    }
    true
}

fn maker_of(streams: &[Stream], number: u32) -> Option<usize>
    ensures { result ≡ option_map (λ x. x.maker) (slice_get streams.now number) }
{
    streams
        .get(number as usize)
        .map(|stream| stream.maker as usize)
}

/// The first operator without a flag whose makers all have theirs.
fn next_ready(rows: &[Makers], flags: &[bool]) -> Option<usize>
    requires { length rows.now ≡ length flags.now }
    ensures next { result ≡ first_ready flags.now 0 (map (covers_all flags.now) rows.now) }
    ensures within { IfSome result (λ next. next < length flags.now) }
{
    for (place, row) in rows.iter().enumerate() {
        if !flags[place] && is_covered(row, flags) {
            return Some(place);
        }
    }
    None
}

fn is_covered(row: &Makers, flags: &[bool]) -> bool
    ensures { result ≡ covers_all flags.now row.now }
{
    match row {
        Some(row) => are_covered(row.as_slice(), flags),
        None => false,
    }
}

/// Whether what has its flag in a row has it among these.
fn are_covered(row: &[bool], flags: &[bool]) -> bool
    ensures { result ≡ covers_from 0 row.now flags.now }
{
    for (at, wanted) in row.iter().enumerate() {
        if *wanted && !has_flag(flags, at) {
            return false;
        }
    }
    true
}

fn has_flag(flags: &[bool], number: usize) -> bool
    ensures { result ≡ slice_index_or flags.now number false }
{
    match flags.get(number) {
        Some(flag) => *flag,
        None => false,
    }
}
