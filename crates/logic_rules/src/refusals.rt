//! Refusals of the state of a Custom.
ghost use Rattle.std.specs.Prelude.{Some, codes};
ghost use Rattle.language_model.specs.declared.scope.CheckError.TheVariants as E;
ghost use Rattle.language_model.specs.Typing.{refused};
ghost use Rattle.language_model.specs.Finds.{Finds};

use language_model::{CheckError, TypeAnswer, refuse};
use std::alloc::Global;

/// A first value of the state that isn't made of literals.
pub(crate) fn left_out<T>(alloc: Global, at: u32) -> Result<T, TypeAnswer>
    ensures { Finds (refused E.LeftOut at (Some (codes "state"))) result }
{
    refuse(alloc, CheckError::LeftOut, at, b"state".as_slice())
}
