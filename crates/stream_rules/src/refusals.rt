//! Refusals of streams and ports.
ghost use Rattle.std.specs.Prelude.{Err, None};
ghost use Rattle.language_model.specs.declared.answer.TypeAnswer.TheVariants.{Refused};
ghost use Rattle.language_model.specs.Finds.{IsUnknown};
ghost use Rattle.stream_rules.specs.steps.Answers.{Copies};

use language_model::{CheckError, CheckRefusal, TypeAnswer};
use spl_value::{Items, Name};
use std::alloc::Global;

/// A name without a meaning, at a place.
pub(crate) fn unknown(alloc: Global, at: u32, name: &Name) -> TypeAnswer
    ensures { IsUnknown at name.now result }
{
    match Items::from_slice(alloc, name.as_slice()) {
        Ok(copy) => TypeAnswer::Refused(CheckRefusal {
            error: CheckError::Unknown,
            at,
            name: Some(copy),
        }),
        Err(_) => TypeAnswer::Memory,
    }
}

/// A refusal once more.
pub(crate) fn copy_of(alloc: Global, refusal: &CheckRefusal) -> TypeAnswer
    ensures { Copies refusal.now result }
{
    let name = match &refusal.name {
        Some(name) => match Items::from_slice(alloc, name.as_slice()) {
            Ok(copy) => Some(copy),
            Err(_) => return TypeAnswer::Memory,
        },
        None => None,
    };
    TypeAnswer::Refused(CheckRefusal {
        error: refusal.error,
        at: refusal.at,
        name,
    })
}
