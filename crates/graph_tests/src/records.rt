//! Runs in the order of a record.
use crate::asked::{Asked, answered};
use language_model::Checked;
use list_engine::{Order, Run, RunAnswer};
use memory_files::MemoryShelf;
use op_kit::run_graph;
use source_rows::{Sources, read_sources};
use spl_value::{Inputs, Item, Items, Name, NoMemory, Value};
use std::alloc::{AllocError, Global};
use stream_model::{ArrivalList, Arrivals};
use test_texts::rows::{Answers, Untrue, expect};
use test_texts::spelled::spelled_out;
use test_texts::text::Text;
use test_texts::words::{bytes, number};

/// Two sources, with a Union that a sink reads, and with a sink that reads them by itself. These two have the
/// numbers 2 and 4.
const PROGRAM: &str = r#"composite Main {graph
stream<int64 n> A = FileSource() {param file: "a";}
stream<int64 n> B = FileSource() {param file: "b";}
stream<int64 n> U = Union(A; B);
() as X = FileSink(U) {param file: "x";}
() as Y = FileSink(A, B) {param file: "y";}}"#;

/// The files of both sources, and the record: `1␊ | 2␊3␊ | 2 0 0 0 1 1 1 1 | 4 1 1 1 1 0 0 0` has a list
/// for the Union and one for the sink. The answer has what the sinks are given, and who ended with a fault, or
/// whose list isn't whole.
const ROWS: &str = "\
# Any order of the items of several inputs, where each comes after those before it in its own input.
1␊2␊ | 5␊ | 2 0 0 0 0 1 1 1 | 4 0 0 0 0 1 1 1 => 1 2 5; 1 2 5
1␊2␊ | 5␊ | 2 1 1 1 0 0 0 0 | 4 0 1 0 1 0 0 1 => 5 1 2; 1 5 2
1␊2␊ | 5␊ | 2 0 1 0 0 0 1 1 | 4 1 0 0 0 0 1 1 => 1 5 2; 5 1 2
# The lists may stand in any order, and those of other operators say nothing.
1␊ | 5␊ | 4 1 1 1 0 0 0 | 3 7 | 2 0 1 0 1 0 1 => 1 5; 5 1
# An operator has no more entries than it has items that it takes.
1␊x␊ | 5␊ | 2 1 0 0 | 4 0 0 => 5 1; 1; fault of 0
1␊x␊ | 5␊ | 2 1 0 0 1 | 4 0 0 => 2 isn't whole
# Entries that are over before the end, and none at all.
1␊2␊ | 5␊ | 2 0 0 0 0 1 1 | 4 0 0 0 0 1 1 1 => 2 isn't whole
1␊2␊ | 5␊ | 4 0 0 0 0 1 1 1 => 2 isn't whole
1␊2␊ | 5␊ | 2 0 0 0 0 1 1 1 => 4 isn't whole
# Entries behind the end.
1␊2␊ | 5␊ | 2 0 0 0 0 1 1 1 1 | 4 0 0 0 0 1 1 1 => 2 isn't whole
1␊2␊ | 5␊ | 2 0 0 0 0 1 1 1 | 4 0 0 0 0 1 1 1 0 => 4 isn't whole
# An input that there isn't, and one that is used up.
1␊2␊ | 5␊ | 2 0 0 2 0 0 1 1 1 | 4 0 0 0 0 1 1 1 => 2 isn't whole
1␊2␊ | 5␊ | 2 1 1 1 1 0 0 0 0 | 4 0 0 0 0 1 1 1 => 2 isn't whole
1␊2␊ | 5␊ | 2 0 0 0 0 1 1 1 | 4 0 0 0 0 0 1 1 => 4 isn't whole
# The first of two.
1␊2␊ | 5␊ | 2 0 | 4 0 => 2 isn't whole
";

/// The record of a row.
struct Recorded;

impl Answers for Recorded {
    fn answer(&self, alloc: Global, text: &str) -> Result<String, AllocError> {
        answered(alloc, PROGRAM.as_bytes(), Asked::Run(text))
    }
}

fn put(alloc: Global, shelf: &mut MemoryShelf, name: &str, text: &str) -> Result<(), NoMemory> {
    let name: Name = bytes(alloc, name)?;
    let text = spelled_out(alloc, text)?;
    shelf.put_file(&name, bytes(alloc, text.as_str())?)
}

// Adds the run from the sources' files in an order.
fn add_run_from(
    alloc: Global,
    text: &mut Text,
    checked: &Checked,
    shelf: &mut MemoryShelf,
    order: &Order,
) {
    match read_sources(alloc, shelf, checked) {
        Sources::Rows(rows) => add_answer(text, run_graph(alloc, checked, rows, order)),
        Sources::OpenFailed(_) => text.add("no file"),
        Sources::Memory => text.add("memory"),
    }
}

/// Adds the run of a row.
pub(crate) fn add_run(alloc: Global, text: &mut Text, checked: &Checked, row: &str) {
    let mut shelf = MemoryShelf::new(alloc);
    let (first, rest) = row.split_once(" | ").unwrap_or((row, ""));
    let (second, lists) = rest.split_once(" | ").unwrap_or((rest, ""));
    if put(alloc, &mut shelf, "a", first).is_err() || put(alloc, &mut shelf, "b", second).is_err() {
        return text.add("memory");
    }
    match record_of(alloc, lists) {
        Ok(record) => add_run_from(alloc, text, checked, &mut shelf, &Order::Recorded(record)),
        Err(_) => text.add("memory"),
    }
}

fn inputs_of(alloc: Global, words: &str) -> Result<Inputs, AllocError> {
    let mut inputs = Items::new(alloc);
    for word in words.split(' ') {
        inputs.push(number(word))?;
    }
    Ok(inputs)
}

/// The lists of a record, each with the operator's number in front of it.
fn record_of(alloc: Global, lists: &str) -> Result<Arrivals, AllocError> {
    let mut arrivals = Items::new(alloc);
    for list in lists.split(" | ") {
        if let Some((op, words)) = list.split_once(' ') {
            arrivals.push(ArrivalList {
                op: number(op),
                inputs: inputs_of(alloc, words)?,
            })?;
        }
    }
    Ok(Arrivals { lists: arrivals })
}

fn add_items(text: &mut Text, items: &[Item]) {
    for (at, item) in items.iter().enumerate() {
        text.add_between(at, " ");
        match item {
            Item::Tuple(values) => match values.get(0) {
                Some(Value::Int(number)) => text.add_number(*number),
                _ => text.add("?"),
            },
            _ => text.add("?"),
        }
    }
}

fn add_sink(text: &mut Text, run: &Run, number: usize) {
    match run.sinks.get(number) {
        Some(items) => add_items(text, items.as_slice()),
        None => text.add("?"),
    }
}

fn add_answer(text: &mut Text, answer: Result<Run, RunAnswer>) {
    match answer {
        Ok(run) => {
            add_sink(text, &run, 3);
            text.add("; ");
            add_sink(text, &run, 4);
            if let Some(fault) = run.fault {
                text.add_place("; fault of ", fault.op);
            }
        }
        Err(RunAnswer::NotWhole(op)) => {
            text.add_place("", op);
            text.add(" isn't whole");
        }
        Err(RunAnswer::Memory) => text.add("memory"),
    }
}

#[test]
fn runs_follow_whole_records_alone(rt: HostRuntime) -> Result<(), Untrue> {
    expect(rt.alloc(), &Recorded, &[ROWS])
}
