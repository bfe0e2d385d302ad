//! What is answered where no record is read.
ghost use Rattle.std.specs.Prelude.{◌≡◌};
ghost use Rattle.arrival_format.specs.declared.answer.ArrivalsAnswer.TheVariants.{Memory};

use std::alloc::AllocError;

/// Why no arrival record was read.
#[derive(Clone, Copy)]
pub enum ArrivalsAnswer {
    /// The bytes spell none.
    Bad,
    /// There was no memory.
    Memory,
}

impl From<AllocError> for ArrivalsAnswer {
    ghost from_gives = { λ _ answer. answer ≡ Memory };

    fn from(_: AllocError) -> ArrivalsAnswer {
        ArrivalsAnswer::Memory
    }
}
