//! Rows that are asked of the program.
//!
//! | Part of a row | What it says |
//! |---|---|
//! | the first one | the file `p.spl`, as `programs` of `program_texts` says; `@none` where it isn't there |
//! | `t.csv: 5␊` | a file beside it, and what it holds; `@times 9 x y` is nine times `x`, and `y`; `«0 9 x»` in a file is nine times `x` too |
//! | `fail read 2 t.csv` | a call that fails, by its number from 1: of the reads of a file; `write 2 o.csv` of the writes to one; `call 3,4` of the shelf's own calls, which open, create and finish; `line` is the line that is told |
//! | `$ run p.spl` | the words, where others are asked than those of the table; they stand last |
use crate::shown::shown;
use feed_pour::{AllStart, OpenGate};
use memory_files::MemoryShelf;
use program_texts::{File, files_of, out_of, shelf_of};
use spl_driver::{Ended, spl};
use spl_value::{Boxed, Bytes};
use std::alloc::{AllocError, Global};
use std::sync::Wait;
use std::thread::Threads;
use test_texts::signs::words;

/// What is seen of an answer.
#[derive(Drop)]
pub(crate) struct Seen {
    pub ended: Ended,
    pub told: Bytes,
    pub shelf: MemoryShelf,
    /// Those that were there before.
    pub files: Vec<File>,
}

/// What is answered to words beside these files, where the calls fail that are told beside them.
pub(crate) fn answered<W: Threads + Wait + Sync>(
    rt: &W,
    alloc: Global,
    beside: &str,
    files: Vec<File>,
    words: &[String],
) -> Result<Boxed<Seen>, AllocError> {
    let mut shelf = shelf_of(alloc, files.as_slice(), beside)?;
    let mut out = out_of(alloc, beside)?;
    let ended = spl(
        rt,
        alloc,
        words,
        &mut shelf,
        &mut AllStart,
        &OpenGate,
        &mut out,
    );
    Boxed::new(
        alloc,
        Seen {
            ended,
            told: out.into_bytes(),
            shelf,
            files,
        },
    )
}

/// What is answered to words where these files and devices stand beside the program.
pub(crate) fn ask<W: Threads + Wait + Sync>(
    rt: &W,
    alloc: Global,
    row: &str,
    line: &str,
) -> Result<Boxed<Seen>, AllocError> {
    let (program, beside) = row.split_once(" | ").unwrap_or((row, ""));
    let words = words(alloc, line)?;
    let files = files_of(alloc, program, beside)?;
    answered(rt, alloc, beside, files, words.as_slice())
}

/// What is answered to these words, unless the row has its own.
pub(crate) fn asked<W: Threads + Wait + Sync>(
    rt: &W,
    alloc: Global,
    words: &str,
    text: &str,
) -> Result<String, AllocError> {
    let (row, words) = text.split_once(" | $ ").unwrap_or((text, words));
    let seen = ask(rt, alloc, row, words)?;
    shown(alloc, seen.get())
}
