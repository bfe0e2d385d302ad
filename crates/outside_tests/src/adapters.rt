//! Streams as the rows of sinks.
ghost use Rattle.std.specs.Prelude.{map, IfOk};
ghost use Rattle.file_adapters.specs.Sinks.{AreDistinct};

use crate::shown::{add_faults, add_held};
use file_adapters::{Sink, Sunk, write_sinks};
use memory_files::MemoryShelf;
use spl_value::{Item, Items, NoMemory, Value, Values};
use std::alloc::{AllocError, Global};
use test_texts::rows::{Answers, Untrue, expect};
use test_texts::signs::{with_signs, without_signs};
use test_texts::text::Text;
use test_texts::words::{bytes, cut, number, numbers};

// What becomes of sinks of two streams: `0 1` are the streams of the sinks `a` and `b`, `none` is no sinks, and
// after ` | ` stands the call that fails, one of the shelf's, or a write to `a`. `row 1 x` is a stream with
// one tuple and the sink `a`.
struct Sinks;

fn text_of(alloc: Global, word: &str) -> Result<Value, AllocError> {
    let text = without_signs(alloc, word)?;
    Ok(Value::Text(bytes(alloc, text.as_str())?))
}

fn value_of(alloc: Global, word: &str) -> Result<Value, AllocError> {
    if word == "true" {
        return Ok(Value::Bool(true));
    }
    match word.parse::<i64>() {
        Ok(number) => Ok(Value::Int(i128::from(number))),
        Err(_) => text_of(alloc, word),
    }
}

fn tuple_of(alloc: Global, row: &str) -> Result<Values, AllocError> {
    let mut values = Items::new(alloc);
    for word in row.split(' ') {
        values.push(value_of(alloc, word)?)?;
    }
    Ok(values)
}

// A stream with a tuple of each row, and with markers after them.
fn stream_of(alloc: Global, rows: &str) -> Result<Items<Item>, AllocError> {
    let mut items = Items::new(alloc);
    for row in rows.split(" | ") {
        items.push(Item::Tuple(tuple_of(alloc, row)?))?;
    }
    items.push(Item::Window)?;
    items.push(Item::Final)?;
    Ok(items)
}

fn streams_of(alloc: Global, texts: &[&str]) -> Result<Items<Items<Item>>, AllocError> {
    let mut streams = Items::new(alloc);
    for rows in texts {
        streams.push(stream_of(alloc, rows)?)?;
    }
    Ok(streams)
}

fn no_sinks(alloc: Global) -> Items<Sink>
    ensures { AreDistinct (map (λ s. s.file) result) }
{
    Items::new(alloc)
}

// The files `a` and `b` of these streams.
fn two_sinks(alloc: Global, first: u32, second: u32) -> Result<Items<Sink>, AllocError>
    ensures { IfOk result (λ sinks. AreDistinct (map (λ s. s.file) sinks)) }
{
    let mut sinks = Items::new(alloc);
    let file = Items::from_slice(alloc, b"a")?;
    sinks.push(Sink {
        file,
        stream: first,
    })?;
    let file = Items::from_slice(alloc, b"b")?;
    sinks.push(Sink {
        file,
        stream: second,
    })?;
    Ok(sinks)
}

// What becomes of sinks of these streams.
fn sunk_of(
    alloc: Global,
    shelf: &mut MemoryShelf,
    sinks: &str,
    streams: &Items<Items<Item>>,
) -> Result<Sunk, AllocError> {
    if sinks == "none" {
        return Ok(write_sinks(alloc, shelf, &no_sinks(alloc), streams, &None));
    }
    let (first, second) = cut(sinks);
    let sinks = two_sinks(alloc, number(first), number(second))?;
    Ok(write_sinks(alloc, shelf, &sinks, streams, &None))
}

fn add_place(text: &mut Text, failed: &str, place: usize) {
    text.add(failed);
    text.add(" ");
    text.add_number(place as i128);
}

fn add_sunk(text: &mut Text, sunk: &Sunk) {
    match sunk {
        Sunk::Done(rows) => {
            text.add("done");
            for rows in rows.as_slice() {
                text.add(" ");
                text.add_number(i128::from(*rows));
            }
        }
        Sunk::NotCreated(place) => add_place(text, "not created", *place),
        Sunk::NotWritten(place) => add_place(text, "not written", *place),
        Sunk::Memory => text.add("no memory"),
    }
}

fn put(alloc: Global, shelf: &mut MemoryShelf, name: &str, held: &str) -> Result<(), NoMemory> {
    let name = bytes(alloc, name)?;
    shelf.put_file(&name, bytes(alloc, held)?)
}

// Lets the shelf's calls of this number fail, or the writes of this number to `a`.
fn fail(alloc: Global, shelf: &mut MemoryShelf, failing: &str) -> Result<(), NoMemory> {
    let (kind, number) = cut(failing);
    let numbers = numbers(alloc, number)?;
    if kind == "call" {
        shelf.fail_calls(numbers);
        return Ok(());
    }
    shelf.fail_writes(&bytes(alloc, "a")?, numbers)
}

// A shelf with two files, some of whose calls fail.
fn shelf_of(alloc: Global, failing: &str) -> Result<MemoryShelf, NoMemory> {
    let mut shelf = MemoryShelf::new(alloc);
    put(alloc, &mut shelf, "b", "was here")?;
    put(alloc, &mut shelf, "c", "stays")?;
    fail(alloc, &mut shelf, failing)?;
    Ok(shelf)
}

fn add_file(alloc: Global, text: &mut Text, shelf: &MemoryShelf, name: &str) {
    text.add("; ");
    text.add(name);
    text.add(" ");
    match bytes(alloc, name) {
        Ok(name) => {
            add_held(text, shelf.file(&name));
            text.add(" ");
            add_faults(text, shelf.tallies(&name));
        }
        Err(_) => text.add("no memory"),
    }
}

// What becomes of the sinks, and then the files of these names.
fn add_files(
    alloc: Global,
    text: &mut Text,
    shelf: Result<MemoryShelf, NoMemory>,
    sinks: &str,
    streams: &Items<Items<Item>>,
    names: &str,
) -> Result<(), NoMemory> {
    let mut shelf = shelf?;
    let sunk = sunk_of(alloc, &mut shelf, sinks, streams)?;
    add_sunk(text, &sunk);
    for name in names.split(' ') {
        add_file(alloc, text, &shelf, name);
    }
    Ok(())
}

fn add_row(alloc: Global, text: &mut Text, row: &str) -> Result<(), NoMemory> {
    let streams = streams_of(alloc, &[row])?;
    add_files(
        alloc,
        text,
        Ok(MemoryShelf::new(alloc)),
        "0 1",
        &streams,
        "a",
    )
}

fn add_both(alloc: Global, text: &mut Text, words: &str) -> Result<(), NoMemory> {
    let (sinks, failing) = words.split_once(" | ").unwrap_or((words, ""));
    let streams = streams_of(alloc, &["1 | 2 | 3", "x,y | z"])?;
    add_files(
        alloc,
        text,
        shelf_of(alloc, failing),
        sinks,
        &streams,
        "a b c",
    )
}

impl Answers for Sinks {
    fn answer(&self, alloc: Global, text: &str) -> Result<String, AllocError> {
        let mut shown = Text::new(alloc);
        let done = match text.strip_prefix("row ") {
            Some(row) => add_row(alloc, &mut shown, row),
            None => add_both(alloc, &mut shown, text),
        };
        if done.is_err() {
            shown.add("no memory");
        }
        with_signs(alloc, shown.finish()?.as_str())
    }
}

#[test]
fn sinks_have_these_rows(rt: HostRuntime) -> Result<(), Untrue> {
    expect(rt.alloc(), &Sinks, &[ROWS, SINKS])
}

const ROWS: &str = r#"
row -5 a,b true => done 1 0; a -5,"a,b",true␊ 0 0 0 0
row -5 q"q true => done 1 0; a -5,"q""q",true␊ 0 0 0 0
row -5 ∅ true => done 1 0; a -5,,true␊ 0 0 0 0
row -5 a␣b true => done 1 0; a -5,a b,true␊ 0 0 0 0

# an empty text alone
row ∅ => done 1 0; a ""␊ 0 0 0 0
"#;

const SINKS: &str = r#"
# both
0 1 => done 3 2; a 1␊2␊3␊ 0 0 0 0; b "x,y"␊z␊ 0 0 0 0; c stays 0 0 0 0

# one stream
1 1 => done 2 2; a "x,y"␊z␊ 0 0 0 0; b "x,y"␊z␊ 0 0 0 0; c stays 0 0 0 0

# no stream
2 0 => done 0 3; a ∅ 0 0 0 0; b 1␊2␊3␊ 0 0 0 0; c stays 0 0 0 0

# first create
0 1 | call 1 => not created 0; a - 0 1 0 0; b was here 0 0 0 0; c stays 0 0 0 0

# second create
0 1 | call 2 => not created 1; a ∅ 0 0 0 0; b was here 0 1 0 0; c stays 0 0 0 0

# second write
0 1 | write 2 => not written 0; a 1␊ 0 0 0 1; b "x,y"␊z␊ 0 0 0 0; c stays 0 0 0 0

# first finish
0 1 | call 3 => not written 0; a 1␊2␊3␊ 0 0 0 1; b "x,y"␊z␊ 0 0 0 0; c stays 0 0 0 0

# second finish
0 1 | call 4 => not written 1; a 1␊2␊3␊ 0 0 0 0; b "x,y"␊z␊ 0 0 0 1; c stays 0 0 0 0

# no sinks
none | call 1 => done; a - 0 0 0 0; b was here 0 0 0 0; c stays 0 0 0 0
"#;
