//! Places that are changed.
ghost use Rattle.std.specs.Prelude.{None, ◌≡◌};
ghost use Rattle.spl_tree.specs.declared.code.Code.TheViews.{out-Code};
ghost use Rattle.spl_tree.specs.declared.code.Slot.{Slot};
ghost use Rattle.language_model.specs.StatementTyping.{level_variable, level_place, place_given, place_typing};
ghost use Rattle.language_model.specs.Finds.{Finds};
ghost use Rattle.type_rules.specs.steps.Places.{with_kind};

use crate::rules::type_of;
use call_rules::{may_change, not_mutable};
use code_copies::Selectors;
use language_model::{Scope, TypeAnswer, Typed};
use spl_tree::{Code, Expr, Place, Slot};
use spl_value::{Boxed, Items, SplType};
use std::alloc::Global;

/// The variable that a code reads, and what is taken of it in turn.
fn variable_read(code: Boxed<Code<Slot>>, takings: Selectors) -> Option<Place>
    ensures { result ≡ level_variable takings (out-Code Slot code) }
{
    match code.get() {
        Code::Name(Slot::Variable(variable)) => Some(Place {
            variable: *variable,
            takings,
        }),
        _ => None,
    }
}

/// The place that a code reads, where it is one of a variable.
fn place_read(alloc: Global, code: Boxed<Code<Slot>>) -> Option<Place>
    ensures { result ≡ level_place (out-Code Slot code) }
{
    if let Code::Name(Slot::Variable(variable)) = code.get() {
        return Some(Place {
            variable: *variable,
            takings: Items::new(alloc),
        });
    }
    let (base, takings) = code.into_inner().into_selection()?;
    variable_read(base, takings)
}

/// The place that a typed expression reads, with the type of what it holds. It has to be one of a
/// variable.
pub(crate) fn place_given(
    alloc: Global,
    at: u32,
    typed: Typed,
) -> Result<(Place, Boxed<SplType>), TypeAnswer>
    ensures { Finds (with_kind (place_given at typed.kind (level_place (out-Code Slot typed.code)))) result }
{
    let Typed { kind, code } = typed;
    match place_read(alloc, code) {
        Some(place) => Ok((place, kind)),
        None => Err(not_mutable(at)),
    }
}

/// The place that an expression is, with the type of what it holds. It has to be one that may be
/// changed.
#[tactic(auto, using(call_rules::proofs::Changing::if_changed))]
pub(crate) fn place_of(
    alloc: Global,
    scope: &Scope,
    expr: &Expr,
) -> Result<(Place, Boxed<SplType>), TypeAnswer>
    ensures { Finds (with_kind (place_typing scope.now expr.now)) result }
{
    let typed = type_of(alloc, scope, expr, None)?;
    may_change(scope, expr.at, expr)?;
    place_given(alloc, expr.at, typed)
}
