//! In which order the operators of a run take their items, and why a run isn't made to its end.
ghost use Rattle.std.specs.Prelude.{◌≡◌};
ghost use Rattle.list_engine.specs.declared.run_order.RunAnswer.TheVariants.{Memory};

use spl_value::NoMemory;
use std::alloc::AllocError;
use stream_model::Arrivals;

/// In which order an operator with several connections takes the items of its inputs.
#[derive(Drop)]
pub enum Order {
    /// All items of its first input, then all of the next, and so on, until it ends.
    InTurn,
    /// As a record says.
    Recorded(Arrivals),
}

/// Why a run isn't made to its end.
#[derive(Clone, Copy)]
pub enum RunAnswer {
    /// The record isn't whole for this operator, the first such in topological order.
    NotWhole(u32),
    Memory,
}

impl From<NoMemory> for RunAnswer {
    ghost from_gives = { λ _ answer. answer ≡ Memory };

    fn from(_: NoMemory) -> RunAnswer {
        RunAnswer::Memory
    }
}

impl From<AllocError> for RunAnswer {
    ghost from_gives = { λ _ answer. answer ≡ Memory };

    fn from(_: AllocError) -> RunAnswer {
        RunAnswer::Memory
    }
}
