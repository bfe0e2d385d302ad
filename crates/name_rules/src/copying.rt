//! Copies of typed codes and of refusals.
ghost use Rattle.std.specs.Prelude.{◌≡◌, IfOk};

use code_copies::{boxed_copy, copy_code};
use language_model::{CheckRefusal, Typed};
use spl_value::{Items, NoMemory};
use std::alloc::Global;

/// A copy of a type and a code.
pub(crate) fn copy_typed(alloc: Global, typed: &Typed) -> Result<Typed, NoMemory>
    ensures { IfOk result (λ copy. copy ≡ typed.now) }
{
    let kind = boxed_copy(alloc, typed.kind.get())?;
    let code = copy_code(alloc, typed.code.get())?;
    Ok(Typed { kind, code })
}

/// A copy of a refusal.
pub(crate) fn copy_refusal(alloc: Global, refusal: &CheckRefusal) -> Result<CheckRefusal, NoMemory>
    ensures { IfOk result (λ copy. copy ≡ refusal.now) }
{
    let name = match &refusal.name {
        Some(name) => Some(Items::from_slice(alloc, name.as_slice())?),
        None => None,
    };
    Ok(CheckRefusal {
        error: refusal.error,
        at: refusal.at,
        name,
    })
}
