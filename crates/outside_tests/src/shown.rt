//! Files and their counts of faults, as texts.
use feed_pour::Tallies;
use spl_value::{Bytes, Items};
use std::alloc::{AllocError, Global};
use test_texts::text::Text;

/// `size` bytes.
pub(crate) fn fives(alloc: Global, size: u32) -> Result<Bytes, AllocError> {
    let mut fives = Vec::new(alloc);
    fives.resize(size as usize, 5u8)?;
    Ok(Items::from_vec(fives))
}

/// Adds what a file holds: `-` where there is none.
pub(crate) fn add_held(text: &mut Text, held: Option<&[u8]>) {
    match held {
        None => text.add("-"),
        Some(held) => {
            if held.is_empty() {
                text.add("∅");
            } else {
                text.add_bytes(held);
            }
        }
    }
}

/// Adds the faults of opening, creating, reading and writing.
pub(crate) fn add_faults(text: &mut Text, tallies: Tallies) {
    text.add_number(i128::from(tallies.opening));
    text.add(" ");
    text.add_number(i128::from(tallies.creating));
    text.add(" ");
    text.add_number(i128::from(tallies.reading));
    text.add(" ");
    text.add_number(i128::from(tallies.writing));
}
