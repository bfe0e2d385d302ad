//! The values of parameters.
ghost use Rattle.std.specs.Prelude.{◌≡◌, Ok};
ghost use Rattle.std.specs.Option.{option_copied};
ghost use Rattle.spl_value.specs.declared.types.SplType.TheViews.{out-SplType};
ghost use Rattle.language_model.specs.ParameterTyping.{one_value, single_value, value_typing};
ghost use Rattle.language_model.specs.parts.ParameterTyping.{format_of, parsing_of, position_of, word_of};
ghost use Rattle.language_model.specs.Finds.{Finds};
ghost use Rattle.language_model.specs.declared.checked.ParameterValue.TheVariants as P;
ghost use Rattle.language_model.specs.Typing.{Found, after, level_index, mismatch};
ghost use Rattle.literal_sites.specs.Sites.{site_seen};

use super::keys::{first_schema, some_keys};
use crate::files::file_name;
use language_model::{ParameterValue, Position, Role, TypeAnswer, Typed, mismatch};
use literal_sites::ExpressionSite;
use spl_tree::{Code, Expr, ExprKind, Parameter, Slot};
use spl_value::{Boxed, SplType};
use std::alloc::Global;
use type_rules::type_of;

/// The value of a parameter of that role.
pub(super) fn value_of(
    alloc: Global,
    site: &ExpressionSite,
    role: Role,
    parameter: &Parameter,
) -> Result<ParameterValue, TypeAnswer>
    ensures { Finds (value_typing (site_seen site.now) parameter.now role) result }
{
    let values = parameter.values.as_slice();
    match role {
        Role::Attributes => {
            let schema = first_schema(site.scope.ports.as_slice());
            let places = some_keys(alloc, parameter.name.at, schema, values)?;
            Ok(ParameterValue::Places(places))
        }
        _ => one_value(alloc, site, role, parameter.name.at, values),
    }
}

/// The one value of a parameter that is named at a place. A second one is refused, after what is
/// refused of the first.
fn one_value(
    alloc: Global,
    site: &ExpressionSite,
    role: Role,
    at: u32,
    values: &[Expr],
) -> Result<ParameterValue, TypeAnswer>
    ensures { Finds (one_value at (single_value (site_seen site.now) role) values.now) result }
{
    match values {
        [] => Err(mismatch(at)),
        [value] => single_value(alloc, site, role, value),
        [value, second, ..] => not_alone(single_value(alloc, site, role, value), second.at),
    }
}

/// A value that another one follows, at that place, which is refused.
fn not_alone(
    found: Result<ParameterValue, TypeAnswer>,
    at: u32,
) -> Result<ParameterValue, TypeAnswer>
    ensures { (o : Found ParameterValue) → Finds o found → Finds (after o (λ x. mismatch at)) result }
{
    match found {
        Ok(value) => {
            drop(value);
            Err(mismatch(at))
        }
        Err(answer) => Err(answer),
    }
}

fn single_value(
    alloc: Global,
    site: &ExpressionSite,
    role: Role,
    value: &Expr,
) -> Result<ParameterValue, TypeAnswer>
    ensures { Finds (single_value (site_seen site.now) role value.now) result }
{
    match role {
        Role::File => Ok(ParameterValue::File(file_name(alloc, site, value)?)),
        Role::Format => format_of(value),
        Role::Parsing => parsing_of(value),
        Role::Condition => {
            let typed = type_of(alloc, site.scope, value, Some(&SplType::Bool))?;
            Ok(ParameterValue::Code(typed.code.into_inner()))
        }
        Role::Position => position_of(value),
        Role::Index => {
            let Typed { kind, code } = type_of(alloc, site.scope, value, None)?;
            index(value.at, kind.get(), code)
        }
        Role::Attributes => Err(mismatch(value.at)),
    }
}

/// A word, which is a name in the tree.
pub(super) fn word_of(value: &Expr) -> Option<&[u8]>
    ensures { option_copied result ≡ word_of value.now }
{
    match value.what.get() {
        ExprKind::Name(name) => Some(name.as_slice()),
        _ => None,
    }
}

fn format_of(value: &Expr) -> Result<ParameterValue, TypeAnswer>
    ensures { Finds (format_of value.now.at (word_of value.now)) result }
{
    match word_of(value) {
        Some(word) if word == b"csv".as_slice() => Ok(ParameterValue::Format),
        _ => Err(mismatch(value.at)),
    }
}

fn parsing_of(value: &Expr) -> Result<ParameterValue, TypeAnswer>
    ensures { Finds (parsing_of value.now.at (word_of value.now)) result }
{
    match word_of(value) {
        Some(word) if word == b"strict".as_slice() => Ok(ParameterValue::Strict(true)),
        Some(word) if word == b"permissive".as_slice() => Ok(ParameterValue::Strict(false)),
        _ => Err(mismatch(value.at)),
    }
}

fn position_of(value: &Expr) -> Result<ParameterValue, TypeAnswer>
    ensures { Finds (position_of value.now.at (word_of value.now)) result }
{
    match word_of(value) {
        Some(word) if word == b"before".as_slice() => {
            Ok(ParameterValue::Position(Position::Before))
        }
        Some(word) if word == b"after".as_slice() => Ok(ParameterValue::Position(Position::After)),
        _ => Err(mismatch(value.at)),
    }
}

/// An index is an integer of any type.
fn index(at: u32, kind: &SplType, code: Boxed<Code<Slot>>) -> Result<ParameterValue, TypeAnswer>
    ensures { Finds (after (level_index at code (out-SplType kind.now)) (λ code. Ok (P.Code code))) result }
{
    match kind {
        SplType::Int(_) => Ok(ParameterValue::Code(code.into_inner())),
        _ => Err(mismatch(at)),
    }
}
