//! What is answered where an expression has no type.
ghost use Rattle.std.specs.Prelude.{◌≡◌, None};
ghost use Rattle.language_model.specs.declared.scope.CheckError.TheVariants as E;
ghost use Rattle.language_model.specs.declared.answer.TypeAnswer.TheVariants.{Refused};

use language_model::{CheckError, TypeAnswer, refused};

/// What is changed at a place isn't mutable.
pub fn not_mutable(at: u32) -> TypeAnswer
    ensures { result ≡ Refused (record { error = E.NotMutable; at = at; name = None }) }
{
    refused(CheckError::NotMutable, at)
}
