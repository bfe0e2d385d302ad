//! Where reading stops.
ghost use Rattle.std.specs.Prelude.{◌≡◌, Err, OnErr};
ghost use Rattle.expr_parser.specs.declared.stop.Stop.TheVariants.{Memory};

use spl_tree::{MOST_HEIGHT, Token};
use spl_value::NoMemory;
use std::alloc::AllocError;

/// Why a line isn't read.
#[derive(Drop)]
pub enum Stop<'t> {
    /// The tokens from the first one on at which the line doesn't go on.
    At(&'t [Token]),
    /// No memory, or no room on the stack.
    Memory,
}

/// What a line gives, how high its highest tree is, and the tokens after it.
pub(crate) type Read<'t, T> = Result<(T, u32, &'t [Token]), Stop<'t>>;

impl<'t> From<AllocError> for Stop<'t> {
    ghost from_gives = { λ _ stop. stop ≡ Memory };

    fn from(_: AllocError) -> Stop<'t> {
        Stop::Memory
    }
}

impl<'t> From<NoMemory> for Stop<'t> {
    ghost from_gives = { λ _ stop. stop ≡ Memory };

    fn from(_: NoMemory) -> Stop<'t> {
        Stop::Memory
    }
}

/// One more than a height.
pub(crate) fn taller<'t>(height: u32) -> Result<u32, Stop<'t>>
    ensures { OnErr result (result ≡ Err Memory) }
{
    if height < MOST_HEIGHT {
        Ok(height + 1)
    } else {
        Err(Stop::Memory)
    }
}
