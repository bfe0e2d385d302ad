//! What is answered where an expression or a clause has no meaning.
ghost use Rattle.std.specs.Prelude.{◌≡◌, Some, None};
ghost use Rattle.language_model.specs.declared.answer.TypeAnswer.TheVariants.{Memory, Refused};
ghost use Rattle.language_model.specs.declared.scope.CheckError.TheVariants as E;
ghost use Rattle.language_model.specs.Finds.{Finds, IsRefused, IsUnknown, Narrows};
ghost use Rattle.language_model.specs.Typing.{refused};

use crate::scope::{CheckError, CheckRefusal};
use spl_value::{Items, NoMemory};
use std::alloc::{AllocError, Global};

/// Why there is no type.
#[derive(Drop)]
pub enum TypeAnswer {
    /// The expression is refused, as the first refusal in it says.
    Refused(CheckRefusal),
    /// There was no memory.
    Memory,
}

impl From<NoMemory> for TypeAnswer {
    ghost from_gives = { λ _ answer. answer ≡ Memory };

    fn from(_: NoMemory) -> TypeAnswer {
        TypeAnswer::Memory
    }
}

impl From<AllocError> for TypeAnswer {
    ghost from_gives = { λ _ answer. answer ≡ Memory };

    fn from(_: AllocError) -> TypeAnswer {
        TypeAnswer::Memory
    }
}

/// A refusal that is about no name, at its place.
pub fn refused(error: CheckError, at: u32) -> TypeAnswer
    ensures { result ≡ Refused (record { error = error; at = at; name = None }) }
{
    TypeAnswer::Refused(CheckRefusal {
        error,
        at,
        name: None,
    })
}

/// What stands there isn't of the type that its place wants.
pub fn mismatch(at: u32) -> TypeAnswer
    ensures { result ≡ Refused (record { error = E.Mismatch; at = at; name = None }) }
{
    refused(CheckError::Mismatch, at)
}

/// A call that isn't one, or that may not stand there.
pub fn wrong_call(at: u32) -> TypeAnswer
    ensures { result ≡ Refused (record { error = E.WrongCall; at = at; name = None }) }
{
    refused(CheckError::WrongCall, at)
}

/// A refusal that is about a name or a word, at its place.
pub fn refused_name(alloc: Global, error: CheckError, at: u32, name: &[u8]) -> TypeAnswer
    ensures { IsRefused error at name.now result }
{
    match Items::from_slice(alloc, name) {
        Ok(name) => TypeAnswer::Refused(CheckRefusal {
            error,
            at,
            name: Some(name),
        }),
        Err(_) => TypeAnswer::Memory,
    }
}

/// A name without a meaning, at its place.
pub fn unknown(alloc: Global, at: u32, name: &[u8]) -> TypeAnswer
    ensures { IsUnknown at name.now result }
{
    refused_name(alloc, CheckError::Unknown, at, name)
}

/// A refusal that is about a name or a word, as what a check of anything answers.
pub fn refuse<T>(alloc: Global, error: CheckError, at: u32, name: &[u8]) -> Result<T, TypeAnswer>
    ensures { Finds (refused error at (Some name.now)) result }
{
    let name = Some(Items::from_slice(alloc, name)?);
    Err(TypeAnswer::Refused(CheckRefusal { error, at, name }))
}

/// A place as it stands in codes. A place of more than 32 bits isn't in memory.
pub fn narrow(place: usize) -> Result<u32, TypeAnswer>
    ensures { Narrows place result }
{
    match u32::try_from(place) {
        Ok(narrow) => Ok(narrow),
        Err(_) => Err(TypeAnswer::Memory),
    }
}
