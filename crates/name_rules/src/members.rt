//! Members of ports.
ghost use Rattle.std.specs.Prelude.{◌≡◌};
ghost use Rattle.std.specs.Option.{option_copied};
ghost use Rattle.language_model.specs.Scopes.{attribute_of};
ghost use Rattle.language_model.specs.Readings.{name_of};
ghost use Rattle.language_model.specs.parts.Typing.{port_attribute};
ghost use Rattle.language_model.specs.Finds.{Finds};
ghost use Rattle.name_rules.specs.Members.{MemberOfPort};

use crate::names::{Meaning, attribute_typed, meaning_of};
use language_model::{Port, Scope, TypeAnswer, Typed, attribute_named, unknown};
use spl_tree::{Expr, ExprKind, Placed, Step};
use spl_value::Name;
use std::alloc::Global;

/// The name that the expression is, in parentheses or not.
fn own_name(expr: &Expr) -> Option<&Name>
    ensures { option_copied result ≡ name_of expr.now.what }
{
    match expr.what.get() {
        ExprKind::Name(name) => Some(name),
        ExprKind::Group(inner) => own_name(inner),
        _ => None,
    }
}

/// A member of a port that is named: the port with its place, the member, and the steps after it.
pub fn port_member<'s>(
    scope: &'s Scope,
    base: &Expr,
    steps: &'s [Step<Expr>],
) -> Option<(usize, &'s Port, &'s Placed<Name>, &'s [Step<Expr>])>
    ensures { MemberOfPort scope.now base.now steps.now result }
{
    let name = own_name(base)?;
    let (first, rest) = steps.split_first()?;
    match meaning_of(scope, name.as_slice()) {
        Meaning::Port(place, port) => match first {
            Step::Member(member) => Some((place, port, member, rest)),
            Step::Index(_) => None,
        },
        Meaning::Variable(_, _) | Meaning::Attribute(_, _, _) | Meaning::Nothing => None,
    }
}

/// The attribute of the member's name, of the port at a place.
pub fn of_port(
    alloc: Global,
    place: usize,
    port: &Port,
    member: &Placed<Name>,
) -> Result<Typed, TypeAnswer>
    ensures { Finds (port_attribute place member.now.at member.now.what (attribute_of port.now.schema member.now.what)) result }
{
    let name = member.what.as_slice();
    match attribute_named(port.schema.as_slice(), name) {
        Some((attribute, found)) => attribute_typed(alloc, place, attribute, found),
        None => Err(unknown(alloc, member.at, name)),
    }
}
