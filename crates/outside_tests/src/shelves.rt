//! Shelves in memory, and what is done on them step by step.
//!
//! | Step | Answer |
//! |---|---|
//! | `put held` | none: the file then holds that; `@fives 9000` are 9,000 bytes |
//! | `fail calls 2 5`, `fail reads 2`, `fail writes 3` | none: these calls are to fail, by their numbers from 1 |
//! | `fetch 9` | `whole` and the bytes, or how many they are, or what is answered where a file of at most 9 bytes can't be read |
//! | `write a␊ b␊` | what each write answers, and what finishes the file |
//! | `holds` | what the file holds |
//! | `faults` | those of opening, creating, reading and writing |
use crate::shown::{add_faults, add_held, fives};
use feed_pour::{Fetched, Opened, Pour, Shelf, fetch, write_all};
use memory_files::{MemoryShelf, PlainShelf};
use spl_value::{Bytes, Name, NoMemory};
use std::alloc::{AllocError, Global};
use test_texts::rows::{Answers, Untrue, expect};
use test_texts::signs::{with_signs, without_signs};
use test_texts::text::Text;
use test_texts::words::{bytes, cut, number, numbers};

// Steps on a shelf some of whose calls fail.
struct Memory;

// Steps on one whose calls never fail.
struct Plain;

fn held_of(alloc: Global, held: &str) -> Result<Bytes, AllocError> {
    match held.strip_prefix("@fives ") {
        None => bytes(alloc, without_signs(alloc, held)?.as_str()),
        Some(size) => fives(alloc, number(size)),
    }
}

fn add_fetched(text: &mut Text, fetched: &Fetched) {
    match fetched {
        Fetched::Whole(bytes) => {
            text.add("whole ");
            if bytes.len() < 100 {
                add_held(text, Some(bytes.as_slice()));
            } else {
                text.add_number(bytes.len() as i128);
            }
        }
        Fetched::TooLong => text.add("too long"),
        Fetched::OpenFailed => text.add("not opened"),
        Fetched::ReadFailed => text.add("not read"),
        Fetched::Memory => text.add("no memory"),
    }
}

fn add_writes<P: Pour>(text: &mut Text, pour: &mut P, pieces: &str) {
    for piece in pieces.split(' ') {
        text.add(if write_all(pour, piece.as_bytes()).is_ok() {
            "written "
        } else {
            "not written "
        });
    }
}

fn add_written<H: Shelf>(text: &mut Text, shelf: &mut H, name: &Name, pieces: &str) {
    match shelf.create(name) {
        Opened::Ok(mut pour) => {
            add_writes(text, &mut pour, pieces);
            text.add(if shelf.finish(name, pour).is_ok() {
                "and finished"
            } else {
                "and not finished"
            });
        }
        Opened::Failed => text.add("not created"),
        Opened::Memory => text.add("no memory"),
    }
}

// Adds the result of a step that each shelf has.
fn add_step<H: Shelf>(
    alloc: Global,
    text: &mut Text,
    shelf: &mut H,
    name: &Name,
    step: &str,
) -> Result<(), NoMemory> {
    let (kind, what) = cut(step);
    if kind == "fetch" {
        add_fetched(text, &fetch(alloc, shelf, name, number(what) as usize));
    } else {
        let pieces = without_signs(alloc, what)?;
        add_written(text, shelf, name, pieces.as_str());
    }
    Ok(())
}

// Lets calls fail.
fn fail(alloc: Global, shelf: &mut MemoryShelf, name: &Name, what: &str) -> Result<(), NoMemory> {
    let (kind, which) = cut(what);
    let numbers = numbers(alloc, which)?;
    match kind {
        "reads" => shelf.fail_reads(name, numbers),
        "writes" => shelf.fail_writes(name, numbers),
        _ => {
            shelf.fail_calls(numbers);
            Ok(())
        }
    }
}

fn add_memory_step(
    alloc: Global,
    text: &mut Text,
    shelf: &mut MemoryShelf,
    name: &Name,
    step: &str,
) -> Result<(), NoMemory> {
    let (kind, what) = cut(step);
    match kind {
        "put" => shelf.put_file(name, held_of(alloc, what)?),
        "fail" => fail(alloc, shelf, name, what),
        "holds" => {
            add_held(text, shelf.file(name));
            Ok(())
        }
        "faults" => {
            add_faults(text, shelf.tallies(name));
            Ok(())
        }
        _ => add_step(alloc, text, shelf, name, step),
    }
}

fn add_plain_step(
    alloc: Global,
    text: &mut Text,
    shelf: &mut PlainShelf,
    name: &Name,
    step: &str,
) -> Result<(), NoMemory> {
    let (kind, what) = cut(step);
    match kind {
        "put" => shelf.put_file(name, held_of(alloc, what)?),
        "holds" => {
            add_held(text, shelf.file(name));
            Ok(())
        }
        _ => add_step(alloc, text, shelf, name, step),
    }
}

// Tells where there was no memory for a step.
fn add_done(text: &mut Text, done: Result<(), NoMemory>) {
    if done.is_err() {
        text.add("no memory");
    }
}

impl Answers for Memory {
    fn answer(&self, alloc: Global, text: &str) -> Result<String, AllocError> {
        let name = bytes(alloc, "rows")?;
        let mut shelf = MemoryShelf::new(alloc);
        let mut seen = Text::new(alloc);
        for step in text.split(" | ") {
            seen.add("; ");
            let done = add_memory_step(alloc, &mut seen, &mut shelf, &name, step);
            add_done(&mut seen, done);
        }
        with_signs(alloc, seen.finish()?.as_str())
    }
}

impl Answers for Plain {
    fn answer(&self, alloc: Global, text: &str) -> Result<String, AllocError> {
        let name = bytes(alloc, "rows")?;
        let mut shelf = PlainShelf::new(alloc);
        let mut seen = Text::new(alloc);
        for step in text.split(" | ") {
            seen.add("; ");
            let done = add_plain_step(alloc, &mut seen, &mut shelf, &name, step);
            add_done(&mut seen, done);
        }
        with_signs(alloc, seen.finish()?.as_str())
    }
}

// An absent name is a fault of opening, and the shelf's first call. The second call creates, the third
// opens, the fourth creates, and the fifth finishes. The third write of the last pour fails, and so does
// what finishes it.
const MEMORY: &str = r#"
fetch 9 | put held | fail calls 2 5 | write x | holds | faults | fail reads 2 | fetch 9 | fail writes 3 | write a␊ | holds | faults | write a␊ b␊ c␊ | holds | faults => ; not opened; ; ; not created; held; 1 1 0 0; ; not read; ; written and not finished; a␊; 1 1 1 1; written written not written and not finished; a␊b␊; 1 1 1 2
"#;

const PLAIN: &str = r#"
fetch 9 | holds | put @fives 9000 | fetch 9000 | fetch 8999 | write a␊ | holds => ; whole ∅; -; ; whole 9000; too long; written and finished; a␊
"#;

#[test]
fn a_shelf_in_memory_answers_as_it_is_told(rt: HostRuntime) -> Result<(), Untrue> {
    expect(rt.alloc(), &Memory, &[MEMORY])?;
    expect(rt.alloc(), &Plain, &[PLAIN])
}
