//! Refusals as texts: the code, the place, and the name where there is one, as `Y1 at 27 foo`.
use crate::text::Text;
use language_model::{CheckRefusal, Code, ExpansionRefusal, code_text};
use spl_value::Name;
use std::alloc::{AllocError, Global};

fn add_refusal(text: &mut Text, code: Code, at: u32, name: &Option<Name>) {
    text.add_bytes(code_text(code));
    text.add_place(" at ", at);
    if let Some(name) = name {
        text.add(" ");
        text.add_bytes(name.as_slice());
    }
}

/// Adds a refusal of the rules of types or clauses.
pub fn add_check_refusal(text: &mut Text, refusal: &CheckRefusal) {
    add_refusal(text, Code::Check(refusal.error), refusal.at, &refusal.name);
}

/// A refusal of the rules of types or clauses.
pub fn check_refusal(alloc: Global, refusal: &CheckRefusal) -> Result<String, AllocError> {
    let mut text = Text::new(alloc);
    add_check_refusal(&mut text, refusal);
    text.finish()
}

/// A refusal of an expansion.
pub fn expansion_refusal(alloc: Global, refusal: &ExpansionRefusal) -> Result<String, AllocError> {
    let mut text = Text::new(alloc);
    let code = Code::Expansion(refusal.error);
    add_refusal(&mut text, code, refusal.at, &refusal.name);
    text.finish()
}
