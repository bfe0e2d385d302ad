//! What a type is, and whether it is the one that a place wants.
ghost use Rattle.std.specs.Prelude.{◌≡◌};
ghost use Rattle.std.specs.Option.{option_copied};
ghost use Rattle.spl_value.specs.declared.types.SplType.TheViews.{out-SplType};
ghost use Rattle.language_model.specs.declared.scope.Typed.{Typed};
ghost use Rattle.language_model.specs.Typing.{Found, after, same_types, as_wanted};
ghost use Rattle.language_model.specs.Finds.{Finds};
ghost use Rattle.call_rules.specs.steps.Kinds.{held_copied, integer_of, held_of, has_order};

use language_model::{TypeAnswer, Typed, mismatch};
use spl_tree::BinaryCode;
use spl_value::{IntKind, SplType, same_type};

/// Whether two types are the same.
pub(crate) fn is_same(a: &SplType, b: &SplType) -> bool
    ensures { result ≡ same_types a.now b.now }
{
    same_type(a, b)
}

/// An expression at a place that has a type by itself: it has to be the wanted one.
pub fn as_wanted(at: u32, wanted: Option<&SplType>, typed: Typed) -> Result<Typed, TypeAnswer>
    ensures { Finds (as_wanted at (option_copied wanted.entry) typed) result }
{
    match wanted {
        None => Ok(typed),
        Some(kind) => {
            if is_same(typed.kind.get(), kind) {
                Ok(typed)
            } else {
                Err(mismatch(at))
            }
        }
    }
}

/// What was found of an expression at a place has to be of the wanted type.
pub fn required(
    at: u32,
    wanted: Option<&SplType>,
    found: Result<Typed, TypeAnswer>,
) -> Result<Typed, TypeAnswer>
    ensures { (o : Found Typed) → Finds o found → Finds (after o (as_wanted at (option_copied wanted.entry))) result }
{
    match found {
        Ok(typed) => as_wanted(at, wanted, typed),
        Err(answer) => Err(answer),
    }
}

/// Whether the values of a type have an order.
pub(crate) fn has_order(kind: &SplType) -> bool
    ensures { result ≡ has_order (out-SplType kind.now) }
{
    match kind {
        SplType::Int(_) | SplType::Text => true,
        SplType::Bool | SplType::List(_) | SplType::Map(_, _) | SplType::Tuple(_) => false,
    }
}

/// The integer type that a type is.
pub(crate) fn integer_of(kind: &SplType) -> Option<IntKind>
    ensures { result ≡ integer_of (out-SplType kind.now) }
{
    match kind {
        SplType::Int(kind) => Some(*kind),
        SplType::Bool | SplType::Text | SplType::List(_) | SplType::Map(_, _) | SplType::Tuple(_) =>
            None,
    }
}

/// What `in` is on a right operand of a type, and the type that the left one has to have.
pub(crate) fn held_of(kind: &SplType) -> Option<(BinaryCode, &SplType)>
    ensures { held_copied result ≡ held_of (out-SplType kind.now) }
{
    match kind {
        SplType::List(element) => Some((BinaryCode::InList, element.get())),
        SplType::Map(key, _) => Some((BinaryCode::InMap, key.get())),
        SplType::Int(_) | SplType::Bool | SplType::Text | SplType::Tuple(_) => None,
    }
}
