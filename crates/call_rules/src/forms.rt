//! What the expressions around an expression see of its form, and comparisons with markers.
ghost use Rattle.std.specs.Prelude.{◌≡◌, Ok};
ghost use Rattle.std.specs.Option.{option_copied};
ghost use Rattle.spl_value.specs.declared.types.SplType.TheVariants as S;
ghost use Rattle.language_model.specs.Readings.{asks_punct, marker_in, marker_of, named_marker, root_of};
ghost use Rattle.language_model.specs.Typing.{marker_asked, typed};
ghost use Rattle.language_model.specs.Finds.{Finds};

use language_model::{TypeAnswer, Typed};
use spl_tree::{BinaryOperator, Code, Expr, ExprKind, Marker, Slot, Step};
use spl_value::{Boxed, Name, SplType};
use std::alloc::Global;

/// The name that the expression is, or of which it takes members and elements, in no parentheses.
pub(crate) fn root_name(expr: &Expr) -> Option<&Name>
    ensures { option_copied result ≡ root_of expr.now.what }
{
    match expr.what.get() {
        ExprKind::Name(name) => Some(name),
        ExprKind::Select(base, _) => root_name(base),
        _ => None,
    }
}

/// Whether the expression is `currentPunct()`, in parentheses or not.
pub fn asks(expr: &Expr) -> bool
    ensures { result ≡ asks_punct expr.now.what }
{
    match expr.what.get() {
        ExprKind::Group(inner) => asks(inner),
        ExprKind::Call(name, arguments) => {
            name.as_slice() == b"currentPunct".as_slice() && arguments.is_empty()
        }
        _ => false,
    }
}

fn marker_named(name: &[u8]) -> Option<Marker>
    ensures { result ≡ marker_of name.now }
{
    if name == b"WindowMarker".as_slice() {
        Some(Marker::Window)
    } else if name == b"FinalMarker".as_slice() {
        Some(Marker::Final)
    } else {
        None
    }
}

/// The marker that the one member of a name is.
fn member_marker(base: Option<&Name>, steps: &[Step<Expr>]) -> Option<Marker>
    ensures { result ≡ marker_in (option_copied base.entry) steps.now }
{
    match (base, steps) {
        (Some(name), [Step::Member(member)]) if name.as_slice() == b"Sys".as_slice() => {
            marker_named(member.what.as_slice())
        }
        _ => None,
    }
}

/// `Sys.WindowMarker` or `Sys.FinalMarker`, where the expression is one, in parentheses or not.
#[tactic(auto, using(language_model::proofs::ReadingLaws::marker_laws))]
pub fn marker(expr: &Expr) -> Option<Marker>
    ensures { result ≡ named_marker expr.now.what }
{
    match expr.what.get() {
        ExprKind::Group(inner) => marker(inner),
        ExprKind::Select(base, steps) => member_marker(root_name(base), steps.as_slice()),
        _ => None,
    }
}

/// The code of a comparison with a marker, where the left side asks for the marker that came.
pub fn marker_test(
    alloc: Global,
    asks: bool,
    operator: BinaryOperator,
    marker: Option<Marker>,
) -> Result<Option<Boxed<Code<Slot>>>, TypeAnswer>
    ensures { Finds (Ok (marker_asked asks operator marker)) result }
{
    match (asks, operator, marker) {
        (true, BinaryOperator::Equal, Some(marker)) => {
            Ok(Some(Boxed::new(alloc, Code::IsMarker(marker))?))
        }
        (true, BinaryOperator::NotEqual, Some(marker)) => {
            Ok(Some(Boxed::new(alloc, Code::IsNotMarker(marker))?))
        }
        _ => Ok(None),
    }
}

/// A code that gives a boolean.
pub fn truth(alloc: Global, code: Boxed<Code<Slot>>) -> Result<Typed, TypeAnswer>
    ensures { Finds (Ok (typed S.Bool code)) result }
{
    let kind = Boxed::new(alloc, SplType::Bool)?;
    Ok(Typed { kind, code })
}
