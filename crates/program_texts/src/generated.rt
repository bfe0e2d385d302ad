//! Programs and files that are too long for a row.
use std::alloc::{AllocError, Global};
use test_texts::signs::without_signs;
use test_texts::spelled::{spelled_out, spread};
use test_texts::words::{cut, number};

/// The text with its first such piece replaced.
pub(crate) fn edited(
    alloc: Global,
    text: &str,
    old: &str,
    new: &str,
) -> Result<String, AllocError> {
    match text.split_once(old) {
        None => text.to_string(alloc),
        Some((before, behind)) => format!(in alloc; "{before}{new}{behind}"),
    }
}

/// Opening parentheses.
pub(crate) const PARENTHESES: &str = "«0 COUNT (»";

/// A condition with `price` in pairs of parentheses.
pub(crate) const NESTED: &str = "«0 COUNT (»price«0 COUNT )» > 10l";

/// A program of sources, each of 60 bytes.
pub(crate) const SOURCES: &str =
    r#"composite Main {graph «1000 COUNT stream<int64 n> S{n} = FileSource() {param file: "t.csv";} »}"#;

/// A program in which Filters stand one after the other. Each drops its own number.
pub(crate) const CHAIN: &str =
    r#"composite Main {graph stream<int64 n> F0 = FileSource() {param file: "t.csv";} «0 COUNT stream<int64 n> F{n+1} = Filter(F{n}) {param filter: n != {n+1}l;} »() as Out = FileSink(FCOUNT) {param file: "o.csv";}}"#;

/// What such a text is for a count.
pub(crate) fn counted(alloc: Global, text: &str, count: &str) -> Result<String, AllocError> {
    let text = text.replace(alloc, "COUNT", count)?;
    spread(alloc, text.as_str())
}

/// A program with blanks after it, so that it has `size` bytes.
pub(crate) fn padded(alloc: Global, program: &str, size: u32) -> Result<String, AllocError> {
    let blanks = " ".repeat(alloc, (size as usize).saturating_sub(program.len()))?;
    format!(in alloc; "{program}{blanks}")
}

// A piece, repeated, and what comes after it.
fn times(alloc: Global, asked: &str) -> Result<String, AllocError> {
    let (count, rest) = cut(asked);
    let (piece, behind) = cut(rest);
    let piece = without_signs(alloc, piece)?;
    let mut text = piece.as_str().repeat(alloc, number(count) as usize)?;
    text.push_str(without_signs(alloc, behind)?.as_str())?;
    Ok(text)
}

/// What a file of a row holds.
pub(crate) fn held_of(alloc: Global, held: &str) -> Result<String, AllocError> {
    match held.strip_prefix("@times ") {
        None => spelled_out(alloc, held),
        Some(asked) => times(alloc, asked),
    }
}
