ghost use Rattle.std.specs.Prelude.{◌≡◌};
ghost use Rattle.spl_lexer.specs.declared.answer.LexAnswer.TheVariants.{Memory};

use spl_tree::LexicalError;
use spl_value::NoMemory;
use std::alloc::AllocError;

/// Why there are no tokens.
#[derive(Clone, Copy)]
pub enum LexAnswer {
    /// The program's first refusal, and the place of its byte.
    Refused(LexicalError, u32),
    /// There was no memory.
    Memory,
}

impl From<NoMemory> for LexAnswer {
    ghost from_gives = { λ _ answer. answer ≡ Memory };

    fn from(_: NoMemory) -> LexAnswer {
        LexAnswer::Memory
    }
}

impl From<AllocError> for LexAnswer {
    ghost from_gives = { λ _ answer. answer ≡ Memory };

    fn from(_: AllocError) -> LexAnswer {
        LexAnswer::Memory
    }
}
