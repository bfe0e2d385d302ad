//! How rows spell many like pieces: `«5 20 A{n}, B{n+1}; »` is 20 times the piece after the two
//! numbers, with 5, 6 and so on for `{n}`, and the next number for `{n+1}`.
use crate::signs::without_signs;
use std::alloc::{AllocError, Global};

// Adds a piece with its number and the next one.
fn add_piece(alloc: Global, text: &mut String, piece: &str, number: u32) -> Result<(), AllocError> {
    let own = number.to_string(alloc)?;
    let next = number.saturating_add(1).to_string(alloc)?;
    let with_next = piece.replace(alloc, "{n+1}", next.as_str())?;
    let whole = with_next.as_str().replace(alloc, "{n}", own.as_str())?;
    text.push_str(whole.as_str())
}

// The first number, how often the piece stands there, and the piece.
fn numbers_and_piece(marked: &str) -> Option<(u32, u32, &str)> {
    let (first, rest) = marked.split_once(" ")?;
    let (times, piece) = rest.split_once(" ")?;
    let first = first.parse::<u32>().ok()?;
    let times = times.parse::<u32>().ok()?;
    Some((first, times, piece))
}

fn add_pieces(alloc: Global, text: &mut String, marked: &str) -> Result<(), AllocError> {
    let Some((first, times, piece)) = numbers_and_piece(marked) else {
        return text.push_str("no numbers");
    };
    for number in first..first.saturating_add(times) {
        add_piece(alloc, text, piece, number)?;
    }
    Ok(())
}

/// A row, or a whole table, with all its pieces.
pub fn spread(alloc: Global, row: &str) -> Result<String, AllocError> {
    let mut text = String::new(alloc);
    for part in row.split("«") {
        match part.split_once("»") {
            Some((marked, behind)) => {
                add_pieces(alloc, &mut text, marked)?;
                text.push_str(behind)?;
            }
            None => text.push_str(part)?,
        }
    }
    Ok(text)
}

/// The text that a row means: with all its pieces, and without signs.
pub fn spelled_out(alloc: Global, row: &str) -> Result<String, AllocError> {
    without_signs(alloc, spread(alloc, row)?.as_str())
}
