//! What stands around the texts of rows.
//!
//! A shell is a line `word: front…back`. A row that begins with its word, as `word: text`, has the program
//! `front text back`, without the blanks. Other rows are whole programs.
use crate::spelled::spelled_out;
use std::alloc::{AllocError, Global};

// What comes before and after the texts of rows that begin with this word.
fn shell<'s>(shells: &'s str, word: &str) -> Option<(&'s str, &'s str)> {
    for line in shells.lines() {
        if let Some((own, around)) = line.split_once(": ")
            && own == word
        {
            return around.split_once("…");
        }
    }
    None
}

// The program of a row that has a shell.
fn in_shell(alloc: Global, shells: &str, row: &str) -> Option<Result<String, AllocError>> {
    let (word, text) = row.split_once(": ")?;
    let (front, back) = shell(shells, word)?;
    Some(format!(in alloc; "{front}{text}{back}"))
}

/// The program of a row, spelled out. Places count from its beginning.
pub fn program(alloc: Global, shells: &str, row: &str) -> Result<String, AllocError> {
    match in_shell(alloc, shells, row) {
        Some(program) => spelled_out(alloc, program?.as_str()),
        None => spelled_out(alloc, row),
    }
}
