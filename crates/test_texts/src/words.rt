//! Words of rows.
use spl_value::{Bytes, Items};
use std::alloc::{AllocError, Global};

/// The pieces of a text that come before the first blank and after it.
pub fn cut(text: &str) -> (&str, &str) {
    text.split_once(' ').unwrap_or((text, ""))
}

/// The number that a text is, or 0.
pub fn number(text: &str) -> u32 {
    text.parse::<u32>().unwrap_or(0)
}

/// The numbers of a text, with a blank between two.
pub fn numbers(alloc: Global, text: &str) -> Result<Items<u64>, AllocError> {
    let mut numbers = Items::new(alloc);
    for piece in text.split(' ') {
        numbers.push(u64::from(number(piece)))?;
    }
    Ok(numbers)
}

/// The bytes of a text.
pub fn bytes(alloc: Global, text: &str) -> Result<Bytes, AllocError> {
    Items::from_slice(alloc, text.as_bytes())
}
