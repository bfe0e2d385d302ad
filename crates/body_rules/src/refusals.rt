//! Refusals of handlers.
ghost use Rattle.std.specs.Prelude.{◌≡◌, Some};
ghost use Rattle.language_model.specs.declared.scope.CheckError.TheVariants as E;
ghost use Rattle.language_model.specs.LogicTyping.{event_word};
ghost use Rattle.language_model.specs.Typing.{refused, unknown};
ghost use Rattle.language_model.specs.Finds.{Finds};

use language_model::{CheckError, TypeAnswer, refuse};
use spl_tree::HandledEvent;
use std::alloc::Global;

/// A port that no input has as its name.
pub(crate) fn unknown<T>(alloc: Global, at: u32, name: &[u8]) -> Result<T, TypeAnswer>
    ensures { Finds (unknown at name.now) result }
{
    refuse(alloc, CheckError::Unknown, at, name)
}

fn event_word(event: HandledEvent) -> &'static [u8]
    ensures { result.now ≡ event_word event }
{
    match event {
        HandledEvent::Tuple => b"onTuple",
        HandledEvent::Punctuation => b"onPunct",
    }
}

/// A second handler of an event.
pub(crate) fn handled_twice<T>(alloc: Global, at: u32, event: HandledEvent) -> Result<T, TypeAnswer>
    ensures { Finds (refused E.ExtraParameter at (Some (event_word event))) result }
{
    refuse(alloc, CheckError::ExtraParameter, at, event_word(event))
}
