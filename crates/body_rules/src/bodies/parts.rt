//! Statements without statements in them, and what stands in others.
ghost use Rattle.std.specs.Prelude.{◌≡◌, Ok, Some, length};
ghost use Rattle.std.specs.Option.{option_copied};
ghost use Rattle.spl_value.specs.declared.types.SplType.TheViews.{out-SplType};
ghost use Rattle.language_model.specs.BodyTyping.{condition_typing, first_value, level_over, return_typing};
ghost use Rattle.language_model.specs.parts.BodyTyping.{assigned, declaration_typing, over_typing};
ghost use Rattle.language_model.specs.Typing.{after, typing};
ghost use Rattle.body_rules.specs.steps.Leads.{Leads, inside_loop, shortened};
ghost use Rattle.body_rules.specs.Settings.{purpose_meant, setting_meant};
ghost use Rattle.language_model.specs.Finds.{Finds};

use super::variables::add_variable;
use super::{BodyPurpose, BodySetting};
use language_model::{Scope, TypeAnswer, Typed, mismatch, wrong_call};
use spl_tree::{BinaryOperator, Code, Declaration, Expr, Slot, Statement};
use spl_value::{Boxed, SplType, default_of, same_type};
use std::alloc::Global;
use type_rules::{assignment_of, compound_of, type_of};
use written_types::type_boxed;

/// The code of an expression that has to be of a type.
fn code_typed(
    alloc: Global,
    scope: &Scope,
    value: &Expr,
    kind: &SplType,
) -> Result<Boxed<Code<Slot>>, TypeAnswer>
    ensures { Finds (after (typing scope.now value.now (Some kind.now)) (λ x. Ok x.code)) result }
{
    let Typed { kind: _, code } = type_of(alloc, scope, value, Some(kind))?;
    Ok(code)
}

/// The first value of a variable of a type: its type's default where it is given none.
fn first_value(
    alloc: Global,
    scope: &Scope,
    kind: &SplType,
    value: Option<&Expr>,
) -> Result<Boxed<Code<Slot>>, TypeAnswer>
    ensures { Finds (first_value scope.now kind.now (option_copied value.entry)) result }
{
    match value {
        None => Ok(Boxed::new(alloc, Code::Literal(default_of(alloc, kind)?))?),
        Some(value) => code_typed(alloc, scope, value, kind),
    }
}

/// A declaration, which adds its variable to the scope.
pub(super) fn declared(
    alloc: Global,
    setting: &BodySetting,
    scope: &mut Scope,
    declaration: &Declaration,
) -> Result<Statement, TypeAnswer>
    ensures code { Leads (declaration_typing (setting_meant setting.now) scope.old declaration.now) result scope.new }
    ensures longer { shortened (length scope.old.vars) scope.new ≡ scope.old }
{
    let kind = type_boxed(alloc, &setting.types, &declaration.kind)?;
    let code = first_value(alloc, scope, kind.get(), declaration.value.as_ref())?;
    add_variable(
        alloc,
        scope,
        declaration.mutable,
        &declaration.name.what,
        kind,
    )?;
    Ok(Statement::Declare(code.into_inner()))
}

/// An assignment, plain or with an operator.
pub(super) fn assigned(
    alloc: Global,
    scope: &Scope,
    place: &Expr,
    operator: Option<BinaryOperator>,
    value: &Expr,
) -> Result<Statement, TypeAnswer>
    ensures { Finds (assigned scope.now place.now operator value.now) result }
{
    match operator {
        None => assignment_of(alloc, scope, place, value),
        Some(operator) => compound_of(alloc, scope, operator, place, value),
    }
}

pub(super) fn condition(
    alloc: Global,
    scope: &Scope,
    test: &Expr,
) -> Result<Boxed<Code<Slot>>, TypeAnswer>
    ensures { Finds (condition_typing scope.now test.now) result }
{
    code_typed(alloc, scope, test, &SplType::Bool)
}

/// The list or the map of a `for`, whose elements or keys have to be of a type.
pub(super) fn over(
    alloc: Global,
    scope: &Scope,
    kind: &SplType,
    values: &Expr,
) -> Result<Boxed<Code<Slot>>, TypeAnswer>
    ensures { Finds (over_typing scope.now kind.now values.now) result }
{
    let typed = type_of(alloc, scope, values, None)?;
    if goes_over(typed.kind.get(), kind) {
        Ok(typed.code)
    } else {
        Err(mismatch(values.at))
    }
}

/// Whether values of a type are gone over by values of the other one.
fn goes_over(values: &SplType, kind: &SplType) -> bool
    ensures { result ≡ level_over kind.now (out-SplType values.now) }
{
    match values {
        SplType::List(element) => same_type(element.get(), kind),
        SplType::Map(key, _) => same_type(key.get(), kind),
        _ => false,
    }
}

/// Whether a way out stands inside a loop.
pub(super) fn leave_loop(at: u32, inside: bool) -> Result<(), TypeAnswer>
    ensures { Finds (inside_loop at inside) result }
{
    if inside { Ok(()) } else { Err(wrong_call(at)) }
}

/// A `return`, with a value in a function that has a result and without one anywhere else.
pub(super) fn returned(
    alloc: Global,
    at: u32,
    purpose: &BodyPurpose,
    scope: &Scope,
    value: Option<&Expr>,
) -> Result<Statement, TypeAnswer>
    ensures { Finds (return_typing at (purpose_meant purpose.now) scope.now (option_copied value.entry)) result }
{
    let wanted = match purpose {
        BodyPurpose::Function(result) => *result,
        BodyPurpose::Handler(_) => None,
    };
    match (wanted, value) {
        (Some(kind), Some(value)) => {
            let code = code_typed(alloc, scope, value, kind)?;
            Ok(Statement::Return(Some(code.into_inner())))
        }
        (None, None) => Ok(Statement::Return(None)),
        (Some(_), None) | (None, Some(_)) => Err(wrong_call(at)),
    }
}
