//! What is answered where a clause is refused.
ghost use Rattle.language_model.specs.declared.scope.CheckError.TheVariants as E;
ghost use Rattle.language_model.specs.Finds.{IsRefused};

use language_model::{CheckError, TypeAnswer, refused_name};
use std::alloc::Global;

/// A parameter or a clause that the operator doesn't have, or that is given twice.
pub fn extra(alloc: Global, at: u32, name: &[u8]) -> TypeAnswer
    ensures { IsRefused E.ExtraParameter at name.now result }
{
    refused_name(alloc, CheckError::ExtraParameter, at, name)
}
