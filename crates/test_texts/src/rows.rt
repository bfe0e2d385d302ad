//! Tables of rows.
//!
//! A table is one literal. Each of its lines is a row, `text => answer`, or a title that begins with
//! `# `, or empty.
use crate::spelled::spread;
use std::alloc::{AllocError, Global};
use std::fmt;

/// What rows are asked of.
pub trait Answers {
    /// The answer to the text of a row.
    fn answer(&self, alloc: Global, text: &str) -> Result<String, AllocError>;
}

/// Why tables aren't as they say.
pub enum Untrue {
    /// These rows have other answers.
    Others(String),
    Memory,
}

impl Drop for Untrue {
    fn drop(self) {
        match self {
            Untrue::Others(_) => {}
            Untrue::Memory => {}
        }
    }
}

impl From<AllocError> for Untrue {
    fn from(_: AllocError) -> Untrue {
        Untrue::Memory
    }
}

impl fmt::Debug for Untrue {
    fn fmt<W: fmt::Write>(&self, f: &mut fmt::Formatter<W>) -> fmt::Result {
        match self {
            Untrue::Others(others) => write!(f, "{}", others.as_str()),
            Untrue::Memory => write!(f, "no memory"),
        }
    }
}

/// The text of a row and the answer that is wanted, or nothing where the line is no row. The text may begin
/// as a title does. A row without an answer wants one that nothing gives.
pub fn row_of(line: &str) -> Option<(&str, &str)> {
    match line.split_once(" => ") {
        Some(row) => Some(row),
        None if line.is_empty() || line.starts_with("# ") => None,
        None => Some((line, "an answer")),
    }
}

/// Adds a row to the others where its answer is another.
pub fn compare(
    others: &mut String,
    text: &str,
    seen: &str,
    wanted: &str,
) -> Result<(), AllocError> {
    if seen == wanted {
        return Ok(());
    }
    write!(others, "\n{text} => {seen}, not {wanted}")
}

// Adds those rows of the table that have other answers, each with its answer. A table without rows is
// told as well.
fn add_others<A: Answers>(
    alloc: Global,
    others: &mut String,
    answers: &A,
    table: &str,
) -> Result<(), AllocError> {
    let mut is_empty = true;
    for line in table.lines() {
        if let Some((text, wanted)) = row_of(line) {
            is_empty = false;
            let seen = answers.answer(alloc, text)?;
            compare(others, text, seen.as_str(), wanted)?;
        }
    }
    if is_empty {
        others.push_str("no rows")?;
    }
    Ok(())
}

/// Whether there are no others: these are told as the error.
pub fn no_others(others: String) -> Result<(), Untrue> {
    if others.is_empty() {
        return Ok(());
    }
    Err(Untrue::Others(others))
}

/// Whether each of the tables has rows, and each row has its answer.
pub fn expect<A: Answers>(alloc: Global, answers: &A, tables: &[&str]) -> Result<(), Untrue> {
    let mut others = String::new(alloc);
    for table in tables {
        add_others(alloc, &mut others, answers, table)?;
    }
    no_others(others)
}

/// The same of tables, each of which is asked of its own.
pub fn expect_each<A: Answers>(alloc: Global, tables: &[(A, &str)]) -> Result<(), Untrue> {
    for (answers, table) in tables {
        expect(alloc, answers, &[*table])?;
    }
    Ok(())
}

/// The same of a table with pieces that stand there many times.
pub fn expect_spread<A: Answers>(alloc: Global, answers: &A, table: &str) -> Result<(), Untrue> {
    let table = spread(alloc, table)?;
    expect(alloc, answers, &[table.as_str()])
}
