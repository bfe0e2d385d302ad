//! Types and codes in boxes.
ghost use Rattle.std.specs.Prelude.{◌≡◌, Ok};
ghost use Rattle.std.specs.Option.{option_copied, option_map};
ghost use Rattle.language_model.specs.Typing.{typed};
ghost use Rattle.language_model.specs.Finds.{Finds};

use language_model::{TypeAnswer, Typed};
use spl_tree::{Code, Slot};
use spl_value::{Boxed, SplType};
use std::alloc::Global;

/// A type and a code, made on their own.
pub(crate) fn boxed(alloc: Global, kind: SplType, code: Code<Slot>) -> Result<Typed, TypeAnswer>
    ensures { Finds (Ok (typed kind code)) result }
{
    let kind = Boxed::new(alloc, kind);
    let code = Boxed::new(alloc, code);
    Ok(Typed {
        kind: kind?,
        code: code?,
    })
}

/// The type in a box, where there is one.
pub fn kind_in(kind: &Option<Boxed<SplType>>) -> Option<&SplType>
    ensures { option_copied result ≡ kind.now }
{
    match kind {
        Some(kind) => Some(kind.get()),
        None => None,
    }
}

/// The types in a pair of boxes, where there are two.
pub fn kinds_in(
    kinds: &Option<(Boxed<SplType>, Boxed<SplType>)>,
) -> (Option<&SplType>, Option<&SplType>)
    ensures first { option_copied result.0 ≡ option_map (λ p. p.0) kinds.now }
    ensures second { option_copied result.1 ≡ option_map (λ p. p.1) kinds.now }
{
    match kinds {
        Some((first, second)) => (Some(first.get()), Some(second.get())),
        None => (None, None),
    }
}
