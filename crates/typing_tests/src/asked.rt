//! What is asked of the texts of rows.
use crate::statements::add_statement_in;
use crate::types::{add_default, add_typed_in, add_written};
use language_texts::{Adds, Place, Unanswered, answer_of, scope_at};
use std::alloc::{AllocError, Global};
use test_texts::rows::Answers;
use test_texts::text::Text;

/// What is asked of the text of a row, in which `␊` is a line feed and `␉` a tab, as in its answer.
#[derive(Clone, Copy)]
pub(crate) enum Asked<'t> {
    /// The type and the code of an expression in a scope. After ` -> ` comes the type that its place wants,
    /// where it wants one.
    Type(Place<'t>),
    /// The statement that an assignment or a call without its `;` is in a scope. What is assigned to may be any
    /// expression here, so that the rules are asked of what the grammar has no statement for, too.
    Statement(Place<'t>),
    /// The type that it writes.
    Written,
    /// The default of the type that it writes. The type is to be the same as a copy of itself, and as that of
    /// no other row of the table.
    Default(&'t str),
}

impl Adds for Asked<'_> {
    fn add_answer(&self, alloc: Global, text: &str, out: &mut Text) -> Result<(), Unanswered> {
        match self {
            Asked::Type(place) => add_typed_in(alloc, scope_at(alloc, place), text, out),
            Asked::Statement(place) => add_statement_in(alloc, scope_at(alloc, place), text, out),
            Asked::Written => add_written(alloc, text, out),
            Asked::Default(table) => add_default(alloc, table, text, out),
        }
    }
}

impl Answers for Asked<'_> {
    fn answer(&self, alloc: Global, text: &str) -> Result<String, AllocError> {
        answer_of(alloc, self, text)
    }
}
