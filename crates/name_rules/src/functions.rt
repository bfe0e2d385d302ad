//! Functions that are called.
ghost use Rattle.std.specs.Option.{option_copied};
ghost use Rattle.spl_tree.specs.declared.code.Code.TheVariants as C;
ghost use Rattle.language_model.specs.Scopes.{at_place, function_of, unresolved_of};
ghost use Rattle.language_model.specs.Typing.{not_callable};
ghost use Rattle.language_model.specs.parts.Typing.{value_given};
ghost use Rattle.language_model.specs.TypingLaws.{parts};
ghost use Rattle.language_model.specs.Finds.{Finds, FindsBy};
ghost use Rattle.name_rules.specs.Functions.{function_found};

use crate::copying::copy_refusal;
use code_copies::{Codes, boxed_copy};
use language_model::{
    Scope, Signature, TypeAnswer, Typed, function_named, mismatch, narrow, unknown,
    unresolved_named, wrong_call,
};
use spl_tree::{Code, Expr, Slot};
use spl_value::{Boxed, Items, SplType};
use std::alloc::Global;

/// A call of what no function of the scope has as its name: the refusal of the types of one that isn't
/// among them, or else the name has no meaning.
fn not_callable<T>(alloc: Global, scope: &Scope, at: u32, name: &[u8]) -> Result<T, TypeAnswer>
    ensures { Finds (not_callable at name.now (unresolved_of scope.now name.now)) result }
{
    match unresolved_named(scope, name) {
        Some(refusal) => Err(TypeAnswer::Refused(copy_refusal(alloc, refusal)?)),
        None => Err(unknown(alloc, at, name)),
    }
}

/// The function of a name, with its place. It has to have as many parameters as there are arguments.
pub fn called<'s>(
    alloc: Global,
    scope: &'s Scope,
    at: u32,
    name: &[u8],
    all: &[Expr],
) -> Result<(usize, &'s Signature), TypeAnswer>
    ensures { FindsBy (λ p. at_place p.0 p.1.now) (function_found at scope.now name.now (parts all.now) (function_of scope.now name.now)) result }
{
    let copy = Items::from_slice(alloc, name)?;
    let Some((place, found)) = function_named(scope, &copy) else {
        return not_callable(alloc, scope, at, name);
    };
    if all.len() != found.parameters.len() {
        return Err(wrong_call(at));
    }
    Ok((place, found))
}

/// A call gives a value of a type, or nothing.
fn value_given(
    alloc: Global,
    at: u32,
    kind: Option<&SplType>,
    code: Boxed<Code<Slot>>,
) -> Result<Typed, TypeAnswer>
    ensures { Finds (value_given at (option_copied kind.entry) code) result }
{
    match kind {
        Some(kind) => {
            let kind = boxed_copy(alloc, kind)?;
            Ok(Typed { kind, code })
        }
        None => Err(mismatch(at)),
    }
}

/// What a call of the function at a place gives, by the type of its result.
pub fn function_given(
    alloc: Global,
    at: u32,
    place: usize,
    kind: Option<&SplType>,
    codes: Codes,
) -> Result<Typed, TypeAnswer>
    ensures { Finds (value_given at (option_copied kind.entry) (C.Call place codes)) result }
{
    let place = narrow(place)?;
    let code = Boxed::new(alloc, Code::Call(place, codes))?;
    value_given(alloc, at, kind, code)
}
