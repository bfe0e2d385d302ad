//! What is answered where a graph isn't fused.
ghost use Rattle.std.specs.Prelude.{◌≡◌};
ghost use Rattle.pe_fusion.specs.declared.answer.FuseAnswer.TheVariants.{Memory};

use spl_value::NoMemory;
use std::alloc::AllocError;

/// Why a graph isn't fused.
#[derive(Clone, Copy)]
pub enum FuseAnswer {
    /// There would be so many elements, more than 2,048.
    TooWide(u32),
    /// There was no memory.
    Memory,
}

impl From<NoMemory> for FuseAnswer {
    ghost from_gives = { λ _ answer. answer ≡ Memory };

    fn from(_: NoMemory) -> FuseAnswer {
        FuseAnswer::Memory
    }
}

impl From<AllocError> for FuseAnswer {
    ghost from_gives = { λ _ answer. answer ≡ Memory };

    fn from(_: AllocError) -> FuseAnswer {
        FuseAnswer::Memory
    }
}
