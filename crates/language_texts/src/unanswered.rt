//! Why a text has no answer.
use language_model::TypeAnswer;
use spl_value::{FaultKind, NoMemory};
use std::alloc::{AllocError, Global};
use test_texts::refusals::add_check_refusal;
use test_texts::signs::without_signs;
use test_texts::text::Text;
use test_texts::values::fault;

/// Why there is no answer to a text.
pub enum Unanswered {
    /// The row isn't what it should be.
    Unread(&'static str),
    /// No unit goes on at this byte.
    Unexpected(u32),
    Untyped(TypeAnswer),
    Fault(FaultKind),
    Memory,
}

impl Drop for Unanswered {
    fn drop(self) {
        match self {
            Unanswered::Unread(_) => {}
            Unanswered::Unexpected(_) => {}
            Unanswered::Untyped(_) => {}
            Unanswered::Fault(_) => {}
            Unanswered::Memory => {}
        }
    }
}

impl From<TypeAnswer> for Unanswered {
    fn from(answer: TypeAnswer) -> Unanswered {
        Unanswered::Untyped(answer)
    }
}

impl From<NoMemory> for Unanswered {
    fn from(_: NoMemory) -> Unanswered {
        Unanswered::Memory
    }
}

impl From<AllocError> for Unanswered {
    fn from(_: AllocError) -> Unanswered {
        Unanswered::Memory
    }
}

// Adds why there is no answer.
fn add_unanswered(text: &mut Text, why: &Unanswered) {
    match why {
        Unanswered::Unread(why) => text.add(why),
        Unanswered::Unexpected(at) => text.add_place("Unexpected at ", *at),
        Unanswered::Untyped(TypeAnswer::Refused(refusal)) => add_check_refusal(text, refusal),
        Unanswered::Fault(kind) => text.add(fault(*kind)),
        Unanswered::Untyped(TypeAnswer::Memory) | Unanswered::Memory => text.add("no memory"),
    }
}

/// What texts of the language are asked.
pub trait Adds {
    /// Adds the answer to a text.
    fn add_answer(&self, alloc: Global, text: &str, out: &mut Text) -> Result<(), Unanswered>;
}

/// The answer to the text of a row, or why there is none. In a row `␊` is a line feed and `␉` a tab, as in its
/// answer.
pub fn answer_of<A: Adds>(alloc: Global, asked: &A, row: &str) -> Result<String, AllocError> {
    let text = without_signs(alloc, row)?;
    let mut out = Text::new(alloc);
    if let Err(why) = asked.add_answer(alloc, text.as_str(), &mut out) {
        add_unanswered(&mut out, &why);
    }
    out.finish()?.replace(alloc, "\t", "␉")
}
