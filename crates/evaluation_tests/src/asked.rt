//! What is asked of the texts of rows.
use crate::bodies::{add_left_by, add_refusal};
use crate::values::add_valued;
use language_texts::{Adds, Unanswered, answer_of, unit_of};
use spl_tree::Marker;
use std::alloc::{AllocError, Global};
use test_texts::rows::Answers;
use test_texts::text::Text;

/// What is asked of the text of a row, in which `␊` is a line feed and `␉` a tab, as in its answer.
#[derive(Clone, Copy)]
pub(crate) enum Asked<'t> {
    /// The value of an expression in a unit where this marker or, as `None`, a tuple came. In ` @ 3` after it
    /// come the turns that there are; then the turns that are left come after the value: `5 | 2`.
    Value(&'t str, Option<Marker>),
    /// The value of a condition where the tuple that it writes came.
    Condition(&'t str),
    /// What it leaves as the body of a handler. It has the declarations of the variables of the state, the
    /// statements, and the turns that there are, with ` @ ` between them. The answer has the values of the
    /// variables, what is submitted and the turns that are left, as `5, [1] | 0:<7> | 3`, or is a fault, or a
    /// refusal, whose place is counted from `void body() { ` in front of the statements.
    Body,
    /// Why its functions are refused, where it is a unit.
    Functions,
}

impl Adds for Asked<'_> {
    fn add_answer(&self, alloc: Global, text: &str, out: &mut Text) -> Result<(), Unanswered> {
        match self {
            Asked::Value(unit, came) => {
                add_valued(alloc, unit_of(alloc, &[*unit]), *came, text, out)
            }
            Asked::Condition(condition) => {
                add_valued(
                    alloc,
                    unit_of(
                        alloc,
                        &["void ports() { tuple<int64 price> T = ", text, "; }"],
                    ),
                    None,
                    condition,
                    out,
                )
            }
            Asked::Body => add_left_by(alloc, text, out),
            Asked::Functions => add_refusal(alloc, text, out),
        }
    }
}

impl Answers for Asked<'_> {
    fn answer(&self, alloc: Global, text: &str) -> Result<String, AllocError> {
        answer_of(alloc, self, text)
    }
}
