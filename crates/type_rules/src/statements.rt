//! Assignments, and calls as statements.
ghost use Rattle.std.specs.Prelude.{◌≡◌, ◌==◌, None, length, if◌then◌else◌};
ghost use Rattle.spl_value.specs.declared.types.SplType.TheViews.{out-SplType};
ghost use Rattle.language_model.specs.Typing.{Found, after, argument_count, call_of, changed_typed, level_changed, level_operator, operands_typed, typed, wrong_call};
ghost use Rattle.language_model.specs.TypingLaws.{parted, parts};
ghost use Rattle.language_model.specs.StatementTyping.{function_statement, assignment_typing, compound_typing, call_typing, change_typing, change_made};
ghost use Rattle.language_model.specs.parts.StatementTyping.{call_statement};
ghost use Rattle.language_model.specs.Scopes.{function_of};
ghost use Rattle.language_model.specs.declared.scope.Typed.{Typed};
ghost use Rattle.spl_tree.specs.declared.code.Code.TheVariants as C;
ghost use Rattle.spl_tree.specs.declared.body.Change.TheVariants as H;
ghost use Rattle.spl_tree.specs.declared.body.Statement.TheVariants as T;
ghost use Rattle.language_model.specs.Finds.{Finds};
ghost use Rattle.type_rules.specs.steps.Places.{compound_value, only};

use crate::places::{place_given, place_of};
use crate::rules::{arguments, call, type_of};
use call_rules::{argument_row, binary, call_named, change_asked, operator_on, required};
use code_copies::Codes;
use language_model::{Scope, TypeAnswer, Typed, mismatch, narrow, wrong_call};
use name_rules::called;
use spl_tree::{
    BinaryCode, BinaryOperator, CallName, Change, Code, Expr, ExprKind, Place, Slot, Statement,
};
use spl_value::{Boxed, Items, SplType};
use std::alloc::Global;

/// The code alone.
fn code_of(typed: Typed) -> Code<Slot>
    ensures { result ≡ typed.code }
{
    let Typed { code, .. } = typed;
    code.into_inner()
}

/// The statement `place = value;` in a scope.
///
/// The place is a mutable variable, or what is taken of one in turn, and the value has to be of the
/// type of what the place holds. The statement evaluates the value, then the place's indexes from
/// left to right, and then changes the place.
///
/// `Refused` comes with the first of these: a refusal of the place as an expression; `WrongCall` at
/// the place where it isn't one; `NotMutable` at the place where its variable isn't mutable; a
/// refusal of the value, under the type that is wanted of it. `Memory` is as that of `type_of`.
pub fn assignment_of(
    alloc: Global,
    scope: &Scope,
    place: &Expr,
    value: &Expr,
) -> Result<Statement, TypeAnswer>
    ensures { Finds (assignment_typing scope.now place.now value.now) result }
{
    let (target, kind) = place_of(alloc, scope, place)?;
    put(target, type_of(alloc, scope, value, Some(kind.get())))
}

/// The statement that puts what was found into a place.
fn put(place: Place, value: Result<Typed, TypeAnswer>) -> Result<Statement, TypeAnswer>
    ensures { (o : Found Typed) → Finds o value → Finds (after o (λ y. Ok (T.Change place (H.Put y.code)))) result }
{
    match value {
        Ok(typed) => Ok(Statement::Change(place, Change::Put(code_of(typed)))),
        Err(answer) => Err(answer),
    }
}

/// An operator whose right operand has to have the type of the left one.
fn same_operands(
    alloc: Global,
    scope: &Scope,
    operator: BinaryOperator,
    first: Typed,
    left: &Expr,
    right: &Expr,
) -> Result<Typed, TypeAnswer>
    ensures { Finds (operands_typed scope.now first (parted left.now) (parted right.now) (level_operator operator (out-SplType first.kind))) result }
{
    let Some((operator, kind)) = operator_on(operator, first.kind.get()) else {
        return Err(mismatch(left.at));
    };
    let second = type_of(alloc, scope, right, Some(first.kind.get()));
    if_second(alloc, kind, operator, first, second)
}

/// An operator that gives this type, where its right operand was found.
fn if_second(
    alloc: Global,
    kind: SplType,
    operator: BinaryCode,
    first: Typed,
    second: Result<Typed, TypeAnswer>,
) -> Result<Typed, TypeAnswer>
    ensures { (o : Found Typed) → Finds o second → Finds (after o (λ y. Ok (typed kind (C.Binary operator first.code y.code)))) result }
{
    match second {
        Ok(second) => binary(alloc, Boxed::new(alloc, kind)?, operator, first, second),
        Err(answer) => Err(answer),
    }
}

/// The value of `place op value`, which has to be of the type of what the place holds.
fn compound_value(
    alloc: Global,
    scope: &Scope,
    operator: BinaryOperator,
    place: &Expr,
    value: &Expr,
    held: &SplType,
) -> Result<Typed, TypeAnswer>
    ensures { Finds (compound_value scope.now operator place.now value.now held.now) result }
{
    let first = type_of(alloc, scope, place, None)?;
    let typed = same_operands(alloc, scope, operator, first, place, value);
    required(place.at, Some(held), typed)
}

/// The statement `place op= value;` in a scope, which is that of `place = place op value;`. So the
/// place's indexes are evaluated with the value, and then once more to change it.
///
/// `Refused` comes with the first of these: a refusal of the place, as in an assignment; `Mismatch`
/// at the place where the operator isn't one of the type of what it holds; a refusal of the value,
/// which has to be of that type; `Mismatch` at the place where the operator gives another type.
/// `Memory` is as that of `type_of`.
pub fn compound_of(
    alloc: Global,
    scope: &Scope,
    operator: BinaryOperator,
    place: &Expr,
    value: &Expr,
) -> Result<Statement, TypeAnswer>
    ensures { Finds (compound_typing scope.now operator place.now value.now) result }
{
    let (target, held) = place_of(alloc, scope, place)?;
    put(
        target,
        compound_value(alloc, scope, operator, place, value, held.get()),
    )
}

/// A call as a statement, in a scope. `appendM(list, value)`, `removeM(map, key)`, `clearM(list)` and
/// `clearM(map)` change a mutable place. The value of every other call isn't used, and a function
/// that is called may give none.
///
/// `Refused` comes with the first of these: `WrongCall` where the expression is no call; `Unknown`
/// where no function has its name; `WrongCall` where it takes another number of arguments; the
/// refusals of its arguments, from left to right. After the first argument comes `WrongCall` where
/// the call doesn't take its type. Where the call changes it, `WrongCall` comes too where it is no
/// place, and then `NotMutable`, at the argument, where its variable isn't mutable. All others stand
/// where the expression begins, except for those of arguments. `Memory` is as that of `type_of`.
pub fn call_of(alloc: Global, scope: &Scope, call: &Expr) -> Result<Statement, TypeAnswer>
    ensures { Finds (call_typing scope.now call.now) result }
{
    match call.what.get() {
        ExprKind::Call(name, all) => {
            call_statement(alloc, scope, call.at, name.as_slice(), all.as_slice())
        }
        _ => Err(wrong_call(call.at)),
    }
}

/// A call by its name: one that changes a place, one whose value isn't used, or one of a function.
fn call_statement(
    alloc: Global,
    scope: &Scope,
    at: u32,
    name: &[u8],
    all: &[Expr],
) -> Result<Statement, TypeAnswer>
    ensures { Finds (call_statement at scope.now name.now (parts all.now) (call_of name.now)) result }
{
    match call_named(name) {
        Some(found @ (CallName::AppendM | CallName::RemoveM | CallName::ClearM)) => {
            changing(alloc, scope, at, found, all)
        }
        Some(
            CallName::Length
            | CallName::Size
            | CallName::Has
            | CallName::Abs
            | CallName::Min
            | CallName::Max
            | CallName::Substring
            | CallName::CurrentPunct,
        ) => {
            let typed = call(alloc, scope, at, name, all)?;
            Ok(Statement::Evaluate(code_of(typed)))
        }
        None => function_statement(alloc, scope, at, name, all),
    }
}

/// A call of a function.
#[tactic(auto, using(crate::proofs::CallLaws::function_statement_law))]
fn function_statement(
    alloc: Global,
    scope: &Scope,
    at: u32,
    name: &[u8],
    all: &[Expr],
) -> Result<Statement, TypeAnswer>
    ensures { Finds (function_statement at scope.now name.now (parts all.now) (function_of scope.now name.now)) result }
{
    let (place, found) = called(alloc, scope, at, name, all)?;
    let kinds = found.parameters.as_slice();
    let codes = arguments(alloc, scope, kinds, all, Items::new(alloc))?;
    let place = narrow(place)?;
    Ok(Statement::Call(place, codes))
}

/// A call that changes its first argument, with as many arguments as it has.
#[tactic(auto, using(crate::proofs::CallLaws::changing_law))]
fn changing(
    alloc: Global,
    scope: &Scope,
    at: u32,
    call: CallName,
    all: &[Expr],
) -> Result<Statement, TypeAnswer>
    ensures { Finds (if length (parts all.now) == argument_count call then change_typing at scope.now call (parts all.now) else wrong_call at) result }
{
    let (first, rest) = argument_row(at, call, all)?;
    let typed = type_of(alloc, scope, first, None)?;
    let others = changed(alloc, scope, at, call, typed.kind.get(), first, rest)?;
    let (place, _) = place_given(alloc, first.at, typed)?;
    change_made(at, call, place, others)
}

/// The codes of the arguments after the first, of a call that changes that. The first one has this
/// type; it has to be a place that may be changed.
#[tactic(auto, using(crate::proofs::CallLaws::changed_law))]
fn changed(
    alloc: Global,
    scope: &Scope,
    at: u32,
    call: CallName,
    kind: &SplType,
    first: &Expr,
    rest: &[Expr],
) -> Result<Codes, TypeAnswer>
    ensures { Finds (changed_typed at scope.now (parted first.now) (parts rest.now) (level_changed call (out-SplType kind.now))) result }
{
    let kinds = change_asked(alloc, scope, at, call, first, kind)?;
    arguments(alloc, scope, kinds.as_slice(), rest, Items::new(alloc))
}

/// The only code of a row.
fn only(codes: Codes) -> Option<Code<Slot>>
    ensures { result ≡ only codes }
{
    let mut codes = codes;
    if codes.len() == 1 { codes.pop() } else { None }
}

/// The change that a call makes, by the codes of its arguments after the place.
fn change_made(
    at: u32,
    call: CallName,
    place: Place,
    others: Codes,
) -> Result<Statement, TypeAnswer>
    ensures { Finds (change_made at call place others) result }
{
    match call {
        CallName::AppendM => match only(others) {
            Some(value) => Ok(Statement::Change(place, Change::Append(value))),
            None => Err(wrong_call(at)),
        },
        CallName::RemoveM => match only(others) {
            Some(key) => Ok(Statement::Change(place, Change::Remove(key))),
            None => Err(wrong_call(at)),
        },
        CallName::ClearM if others.is_empty() => Ok(Statement::Change(place, Change::Clear)),
        _ => Err(wrong_call(at)),
    }
}
