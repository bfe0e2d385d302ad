//! Signs for what a row of a table can't have.
//!
//! | Sign | What it means |
//! |---|---|
//! | `␊`, `␍`, `␉`, `␀` | a line feed, a carriage return, a tab, a byte of number 0 |
//! | `␣` | a blank, where it would be lost or would part two words |
//! | `◆` | a byte order mark |
//! | `∅` | nothing: an empty text or word |
use std::alloc::{AllocError, Global};

// What a character of a row means.
fn meant(sign: char) -> Option<char> {
    match sign {
        '␊' => Some('\n'),
        '␍' => Some('\r'),
        '␉' => Some('\t'),
        '␀' => Some('\0'),
        '␣' => Some(' '),
        '◆' => Some('\u{feff}'),
        '∅' => None,
        other => Some(other),
    }
}

// The sign for a character, in a row.
fn sign(meant: char) -> char {
    match meant {
        '\n' => '␊',
        '\r' => '␍',
        other => other,
    }
}

/// The text that is meant by a text in a row.
pub fn without_signs(alloc: Global, text: &str) -> Result<String, AllocError> {
    let mut plain = String::new(alloc);
    for character in text.chars() {
        if let Some(meant) = meant(character) {
            plain.push(meant)?;
        }
    }
    Ok(plain)
}

/// A text as it stands in a row.
pub fn with_signs(alloc: Global, text: &str) -> Result<String, AllocError> {
    let mut row = String::new(alloc);
    for character in text.chars() {
        row.push(sign(character))?;
    }
    Ok(row)
}

/// The words of a command line in a row. There are none in an empty text.
pub fn words(alloc: Global, line: &str) -> Result<Vec<String>, AllocError> {
    let mut words = Vec::new(alloc);
    if line.is_empty() {
        return Ok(words);
    }
    for word in line.split(' ') {
        words.push(without_signs(alloc, word)?)?;
    }
    Ok(words)
}
