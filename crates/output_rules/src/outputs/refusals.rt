//! Refusals of outputs.
ghost use Rattle.std.specs.Prelude.{◌≡◌, None};
ghost use Rattle.language_model.specs.declared.scope.CheckError.TheVariants as E;
ghost use Rattle.language_model.specs.declared.answer.TypeAnswer.TheVariants.{Refused};

use language_model::{CheckError, TypeAnswer, refused};

pub(super) fn bad_output(at: u32) -> TypeAnswer
    ensures { result ≡ Refused (record { error = E.BadOutput; at = at; name = None }) }
{
    refused(CheckError::BadOutput, at)
}
