//! What is answered, as a text.
//!
//! The parts of an answer come one after another:
//!
//! | Text | Part |
//! |---|---|
//! | `3 stopped B DivZero␊` | the status, and after a blank what was told, where anything was |
//! | `; o.csv 20␊` | a file that a sink made, and what it holds, or its length, `of 1200 bytes` |
//! | `; t.csv changed` | a file that was there before, and isn't as it was |
//! | `; t.csv unread` | of status 4, a file of which a read failed |
//! | `; counts 2:1 3:0` | of a run with status 0 or 3, each sink's number and the rows that it wrote |
//! | `; record 2 0 0 1` | the inputs of the events of an operator with several, by its number, or how many events, `of 1200 inputs` |
//! | `; channels` | counts of channels |
use crate::ask::Seen;
use memory_files::MemoryShelf;
use program_texts::File;
use spl_driver::Ended;
use std::alloc::{AllocError, Global};
use test_texts::signs::with_signs;
use test_texts::text::Text;
use test_texts::words::bytes;

// The files that a row's request may make.
const MADE: &str =
    "o.csv x.csv y.csv z.csv m.csv a.txt failures.csv warm.csv hot.csv statistics.csv falls.csv \
    rises.csv cancelled.csv small.csv middle.csv large.csv holdings.csv others.csv refused.csv failed.csv \
    paths.csv rates.csv lo.csv hi.csv big.csv means.csv range.csv \
    quiet.csv busy.csv bulk.csv booked.csv";

fn add_told(text: &mut Text, seen: &Seen) {
    text.add_number(i128::from(seen.ended.status));
    if !seen.told.is_empty() {
        text.add(" ");
        text.add_bytes(seen.told.as_slice());
    }
}

fn add_made(text: &mut Text, name: &str, held: &[u8]) {
    text.add("; ");
    text.add(name);
    if held.is_empty() {
        text.add(" ∅");
    } else if held.len() <= 1000 {
        text.add(" ");
        text.add_bytes(held);
    } else {
        text.add(" of ");
        text.add_number(held.len() as i128);
        text.add(" bytes");
    }
}

fn add_all_made(
    alloc: Global,
    text: &mut Text,
    shelf: &MemoryShelf,
    but: &str,
) -> Result<(), AllocError> {
    for name in MADE.split(' ') {
        if name == but {
            continue;
        }
        if let Some(held) = shelf.file(&bytes(alloc, name)?) {
            add_made(text, name, held);
        }
    }
    Ok(())
}

// Whether a file is as it was.
fn is_kept(shelf: &MemoryShelf, file: &File) -> bool {
    match shelf.file(&file.name) {
        None => false,
        Some(held) => held == file.held.as_slice(),
    }
}

fn add_changed(text: &mut Text, shelf: &MemoryShelf, files: &[File]) {
    for file in files {
        if !is_kept(shelf, file) {
            text.add("; ");
            text.add_bytes(file.name.as_slice());
            text.add(" changed");
        }
    }
}

fn add_unread(text: &mut Text, shelf: &MemoryShelf, files: &[File]) {
    for file in files {
        if shelf.tallies(&file.name).reading > 0 {
            text.add("; ");
            text.add_bytes(file.name.as_slice());
            text.add(" unread");
        }
    }
}

fn add_counts(text: &mut Text, ended: &Ended) {
    for (at, sink) in ended.counts.sinks.as_slice().iter().enumerate() {
        text.add(if at == 0 { "; counts " } else { " " });
        text.add_number(i128::from(sink.op));
        text.add(":");
        text.add_number(i128::from(sink.tuples));
    }
    if !ended.counts.channels.is_empty() {
        text.add("; channels");
    }
}

// The inputs of a list, or how many there are.
fn add_inputs(text: &mut Text, inputs: &[u32]) {
    if inputs.len() > 1000 {
        text.add(" of ");
        text.add_number(inputs.len() as i128);
        text.add(" inputs");
        return;
    }
    for input in inputs {
        text.add(" ");
        text.add_number(i128::from(*input));
    }
}

fn add_record(text: &mut Text, ended: &Ended) {
    for list in ended.arrivals.lists.as_slice() {
        text.add("; record ");
        text.add_number(i128::from(list.op));
        add_inputs(text, list.inputs.as_slice());
    }
}

/// What was answered, beside the file of this name.
pub(crate) fn shown_but(alloc: Global, seen: &Seen, but: &str) -> Result<String, AllocError> {
    let mut text = Text::new(alloc);
    add_told(&mut text, seen);
    add_all_made(alloc, &mut text, &seen.shelf, but)?;
    add_changed(&mut text, &seen.shelf, seen.files.as_slice());
    if seen.ended.status == 4 {
        add_unread(&mut text, &seen.shelf, seen.files.as_slice());
    }
    if seen.ended.status == 0 || seen.ended.status == 3 {
        add_counts(&mut text, &seen.ended);
    }
    add_record(&mut text, &seen.ended);
    with_signs(alloc, text.finish()?.as_str())
}

/// What was answered.
pub(crate) fn shown(alloc: Global, seen: &Seen) -> Result<String, AllocError> {
    shown_but(alloc, seen, "")
}
