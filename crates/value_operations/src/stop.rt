//! Why an evaluation ends without a value.
ghost use Rattle.std.specs.Prelude.{◌≡◌};
ghost use Rattle.value_operations.specs.declared.stop.Stop.TheVariants.{Memory};

use spl_value::{FaultKind, NoMemory};
use std::alloc::AllocError;

/// Why there is no value.
#[derive(Clone, Copy)]
pub enum Stop {
    Fault(FaultKind),
    /// There was no memory, or no room for a deeper call.
    Memory,
}

impl From<NoMemory> for Stop {
    ghost from_gives = { λ _ stop. stop ≡ Memory };

    fn from(_: NoMemory) -> Stop {
        Stop::Memory
    }
}

impl From<AllocError> for Stop {
    ghost from_gives = { λ _ stop. stop ≡ Memory };

    fn from(_: AllocError) -> Stop {
        Stop::Memory
    }
}
