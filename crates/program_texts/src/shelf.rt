//! The files of a row, and the calls that fail.
use crate::generated::held_of;
use crate::programs::program_of;
use memory_files::{MemoryPour, MemoryShelf};
use spl_value::{Bytes, Items, NoMemory};
use std::alloc::{AllocError, Global};
use test_texts::words::{bytes, cut};

/// A file's name, and what it holds.
pub struct File {
    pub name: Bytes,
    pub held: Bytes,
}

impl Drop for File {
    fn drop(self) {
        let File { name: _, held: _ } = self;
    }
}

fn make_file(alloc: Global, name: &str, held: &str) -> Result<File, AllocError> {
    Ok(File {
        name: bytes(alloc, name)?,
        held: bytes(alloc, held)?,
    })
}

// Adds the file of a part, if it has one.
fn add_file(alloc: Global, files: &mut Vec<File>, part: &str) -> Result<(), AllocError> {
    let Some((name, held)) = part.split_once(": ") else {
        return Ok(());
    };
    let held = held_of(alloc, held)?;
    files.push(make_file(alloc, name, held.as_str())?)?;
    Ok(())
}

// Adds the program of a row, if it has one.
fn add_program(alloc: Global, files: &mut Vec<File>, program: &str) -> Result<(), AllocError> {
    if program == "@none" {
        return Ok(());
    }
    let program = program_of(alloc, program)?;
    files.push(make_file(alloc, "p.spl", program.as_str())?)?;
    Ok(())
}

/// The program of a row, if it has one, and the files beside it.
pub fn files_of(alloc: Global, program: &str, beside: &str) -> Result<Vec<File>, AllocError> {
    let mut files = Vec::new(alloc);
    add_program(alloc, &mut files, program)?;
    for part in beside.split(" | ") {
        add_file(alloc, &mut files, part)?;
    }
    Ok(files)
}

fn numbers_of(alloc: Global, text: &str) -> Result<Items<u64>, AllocError> {
    let mut numbers = Items::new(alloc);
    for number in text.split(',') {
        numbers.push(number.parse::<u64>().unwrap_or(0))?;
    }
    Ok(numbers)
}

fn fail_calls(
    shelf: &mut MemoryShelf,
    kind: &str,
    name: &Bytes,
    numbers: Items<u64>,
) -> Result<(), NoMemory> {
    match kind {
        "read" => shelf.fail_reads(name, numbers),
        "write" => shelf.fail_writes(name, numbers),
        "call" => {
            shelf.fail_calls(numbers);
            Ok(())
        }
        "line" => Ok(()),
        _ => Err(NoMemory),
    }
}

// Lets calls fail: `read 1 a.csv`, `write 2 o.csv`, or `call 3,4` of the shelf's own calls, which open,
// create and finish.
fn fail(alloc: Global, shelf: &mut MemoryShelf, call: &str) -> Result<(), AllocError> {
    let (kind, which) = cut(call);
    let (numbers, name) = cut(which);
    let name = bytes(alloc, name)?;
    let numbers = numbers_of(alloc, numbers)?;
    fail_calls(shelf, kind, &name, numbers).map_err(|_| AllocError)
}

fn put_files(alloc: Global, shelf: &mut MemoryShelf, files: &[File]) -> Result<(), AllocError> {
    for file in files {
        let held = Items::from_slice(alloc, file.held.as_slice())?;
        shelf.put_file(&file.name, held).map_err(|_| AllocError)?;
    }
    Ok(())
}

// Puts the files on the shelf, and lets the calls fail that are told beside them.
fn prepare(
    alloc: Global,
    shelf: &mut MemoryShelf,
    files: &[File],
    beside: &str,
) -> Result<(), AllocError> {
    put_files(alloc, shelf, files)?;
    for part in beside.split(" | ") {
        if let Some(call) = part.strip_prefix("fail ") {
            fail(alloc, shelf, call)?;
        }
    }
    Ok(())
}

/// A shelf with these files, on which the calls fail that are told beside them.
pub fn shelf_of(alloc: Global, files: &[File], beside: &str) -> Result<MemoryShelf, AllocError> {
    let mut shelf = MemoryShelf::new(alloc);
    prepare(alloc, &mut shelf, files, beside)?;
    Ok(shelf)
}

/// What takes the line that is told. It takes none where `fail line` stands beside the program.
pub fn out_of(alloc: Global, beside: &str) -> Result<MemoryPour, AllocError> {
    let failing = if beside.contains("fail line") {
        numbers_of(alloc, "1")?
    } else {
        Items::new(alloc)
    };
    Ok(MemoryPour::new(alloc, failing))
}
