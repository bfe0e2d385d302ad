//! What is answered where a program has no graph.
ghost use Rattle.std.specs.Prelude.{◌≡◌};
ghost use Rattle.composite_expand.specs.declared.answer.ExpandAnswer.TheVariants.{Memory, Refused};
ghost use Rattle.language_model.specs.Refusals.{named_refusal};

use language_model::{ExpansionError, ExpansionRefusal};
use spl_tree::Placed;
use spl_value::{Name, NoMemory};
use std::alloc::AllocError;

/// Why there is no graph.
#[derive(Drop)]
pub enum ExpandAnswer {
    /// The program is refused.
    Refused(ExpansionRefusal),
    /// There was no memory.
    Memory,
}

impl From<NoMemory> for ExpandAnswer {
    ghost from_gives = { λ _ answer. answer ≡ Memory };

    fn from(_: NoMemory) -> ExpandAnswer {
        ExpandAnswer::Memory
    }
}

impl From<AllocError> for ExpandAnswer {
    ghost from_gives = { λ _ answer. answer ≡ Memory };

    fn from(_: AllocError) -> ExpandAnswer {
        ExpandAnswer::Memory
    }
}

/// The refusal of a name, at its place.
pub(crate) fn refused(error: ExpansionError, name: Placed<Name>) -> ExpandAnswer
    ensures { result ≡ Refused (named_refusal error name) }
{
    let (at, name) = name.into_parts();
    ExpandAnswer::Refused(ExpansionRefusal {
        error,
        at,
        name: Some(name),
    })
}
