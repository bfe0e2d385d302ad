//! The calls that the language has built in.
ghost use Rattle.std.specs.Prelude.{◌≡◌, IfOk, None, Ok, Some, [], ◌∷◌, if◌then◌else◌};
ghost use Rattle.spl_value.specs.declared.types.SplType.TheVariants as S;
ghost use Rattle.spl_value.specs.declared.types.SplType.TheViews.{out-SplType};
ghost use Rattle.spl_tree.specs.declared.code.BuiltIn.TheVariants as Q;
ghost use Rattle.spl_tree.specs.declared.code.CallName.TheVariants as A;
ghost use Rattle.spl_tree.specs.declared.code.Code.TheVariants as C;
ghost use Rattle.language_model.specs.Readings.{root_of};
ghost use Rattle.language_model.specs.Typing.{call_of, argument_count, int32, level_first, level_changed, is_mutable, if_mutable, typed};
ghost use Rattle.language_model.specs.TypingLaws.{parted, parts};
ghost use Rattle.language_model.specs.Finds.{Finds, FindsBy};
ghost use Rattle.call_rules.specs.steps.CallNames.{changing, computing, looking};
ghost use Rattle.call_rules.specs.steps.Kinds.{has_order};
ghost use Rattle.call_rules.specs.Calls.{asked, change_asked, first_for, given, row_for, value_asked};

use crate::answer::not_mutable;
use crate::forms::root_name;
use crate::kinds::{has_order, integer_of};
use code_copies::Codes;
use language_model::{Scope, TypeAnswer, Typed, mismatch, variable_named, wrong_call};
use spl_tree::{BuiltIn, CallName, Code, Expr, Slot};
use spl_value::{Boxed, IntKind, Items, SplType, copy_type};
use std::alloc::Global;

/// The call of this name that looks at a value as a whole.
fn looking_named(name: &[u8]) -> Option<CallName>
    ensures { result ≡ looking name.now }
{
    if name == b"length".as_slice() {
        Some(CallName::Length)
    } else if name == b"size".as_slice() {
        Some(CallName::Size)
    } else if name == b"has".as_slice() {
        Some(CallName::Has)
    } else {
        None
    }
}

/// The call of this name that changes its first argument.
fn changing_named(name: &[u8]) -> Option<CallName>
    ensures { result ≡ changing name.now }
{
    if name == b"appendM".as_slice() {
        Some(CallName::AppendM)
    } else if name == b"removeM".as_slice() {
        Some(CallName::RemoveM)
    } else if name == b"clearM".as_slice() {
        Some(CallName::ClearM)
    } else {
        None
    }
}

/// The call of this name that computes a value of its own.
fn computing_named(name: &[u8]) -> Option<CallName>
    ensures { result ≡ computing name.now }
{
    if name == b"abs".as_slice() {
        Some(CallName::Abs)
    } else if name == b"min".as_slice() {
        Some(CallName::Min)
    } else if name == b"max".as_slice() {
        Some(CallName::Max)
    } else if name == b"substring".as_slice() {
        Some(CallName::Substring)
    } else if name == b"currentPunct".as_slice() {
        Some(CallName::CurrentPunct)
    } else {
        None
    }
}

/// The call that has this name.
#[tactic(auto, using(crate::proofs::CallNames::call_by_name))]
pub fn call_named(name: &[u8]) -> Option<CallName>
    ensures { result ≡ call_of name.now }
{
    if let Some(call) = looking_named(name) {
        return Some(call);
    }
    if let Some(call) = changing_named(name) {
        return Some(call);
    }
    computing_named(name)
}

/// How many arguments a call has.
pub fn argument_count(call: CallName) -> usize
    ensures { result ≡ argument_count call }
{
    match call {
        CallName::CurrentPunct => 0,
        CallName::Length | CallName::Size | CallName::ClearM | CallName::Abs => 1,
        CallName::Has | CallName::AppendM | CallName::RemoveM | CallName::Min | CallName::Max => 2,
        CallName::Substring => 3,
    }
}

/// What a call is on a first argument of a type, the type that it gives, and the types that the other
/// arguments have to have.
pub type OnFirst = Option<(BuiltIn, Boxed<SplType>, Items<SplType>)>;

fn one_type(alloc: Global, kind: &SplType) -> Result<Items<SplType>, TypeAnswer>
    ensures { Finds (Ok (kind.now ∷ [])) result }
{
    let mut kinds = Items::new(alloc);
    kinds.push(copy_type(alloc, kind)?)?;
    Ok(kinds)
}

/// The number of elements of a list or of entries of a map.
fn size_of(alloc: Global, kind: &SplType) -> Result<OnFirst, TypeAnswer>
    ensures { Finds (Ok (level_first A.Size kind.now (out-SplType kind.now))) result }
{
    match kind {
        SplType::List(_) | SplType::Map(_, _) => {
            let kind = Boxed::new(alloc, SplType::Int(IntKind::I32))?;
            Ok(Some((BuiltIn::Size, kind, Items::new(alloc))))
        }
        SplType::Int(_) | SplType::Bool | SplType::Text | SplType::Tuple(_) => Ok(None),
    }
}

/// Whether a map has a key.
fn has_key(alloc: Global, kind: &SplType) -> Result<OnFirst, TypeAnswer>
    ensures { Finds (Ok (level_first A.Has kind.now (out-SplType kind.now))) result }
{
    match kind {
        SplType::Map(key, _) => {
            let others = one_type(alloc, key.get())?;
            let kind = Boxed::new(alloc, SplType::Bool)?;
            Ok(Some((BuiltIn::Has, kind, others)))
        }
        SplType::Int(_) | SplType::Bool | SplType::Text | SplType::List(_) | SplType::Tuple(_) => {
            Ok(None)
        }
    }
}

/// The absolute value of an integer.
fn absolute(alloc: Global, kind: Boxed<SplType>) -> Result<OnFirst, TypeAnswer>
    ensures { Finds (Ok (level_first A.Abs kind (out-SplType kind))) result }
{
    match integer_of(kind.get()) {
        Some(number) => Ok(Some((BuiltIn::Abs(number), kind, Items::new(alloc)))),
        None => Ok(None),
    }
}

/// A smaller or larger one of two values of a type that has an order.
fn on_ordered(alloc: Global, call: BuiltIn, kind: Boxed<SplType>) -> Result<OnFirst, TypeAnswer>
    ensures { Finds (Ok (if has_order (out-SplType kind) then Some (call, kind, kind ∷ []) else None)) result }
{
    if !has_order(kind.get()) {
        return Ok(None);
    }
    let others = one_type(alloc, kind.get())?;
    Ok(Some((call, kind, others)))
}

/// What a call is on a first argument of a type, or nothing where it isn't on one of its class.
fn on_first(alloc: Global, call: CallName, kind: Boxed<SplType>) -> Result<OnFirst, TypeAnswer>
    ensures { Finds (Ok (level_first call kind (out-SplType kind))) result }
{
    match call {
        CallName::Size => size_of(alloc, kind.get()),
        CallName::Has => has_key(alloc, kind.get()),
        CallName::Abs => absolute(alloc, kind),
        CallName::Min => on_ordered(alloc, BuiltIn::Min, kind),
        CallName::Max => on_ordered(alloc, BuiltIn::Max, kind),
        CallName::Length
        | CallName::AppendM
        | CallName::RemoveM
        | CallName::ClearM
        | CallName::Substring
        | CallName::CurrentPunct => Ok(None),
    }
}

/// The types that the arguments after the first have to have, of a call that changes a first one of
/// a type, or nothing where the call changes no such one.
fn on_changed(
    alloc: Global,
    call: CallName,
    kind: &SplType,
) -> Result<Option<Items<SplType>>, TypeAnswer>
    ensures { Finds (Ok (level_changed call (out-SplType kind.now))) result }
{
    match (call, kind) {
        (CallName::AppendM, SplType::List(element)) => Ok(Some(one_type(alloc, element.get())?)),
        (CallName::RemoveM, SplType::Map(key, _)) => Ok(Some(one_type(alloc, key.get())?)),
        (CallName::ClearM, SplType::List(_) | SplType::Map(_, _)) => Ok(Some(Items::new(alloc))),
        _ => Ok(None),
    }
}

/// Whether the name is a variable that may be changed.
fn is_mutable(scope: &Scope, name: &[u8]) -> bool
    ensures { result ≡ is_mutable scope.now name.now }
{
    match variable_named(scope, name) {
        Some((_, found)) => found.mutable,
        None => false,
    }
}

/// What is changed has to be a place, and its variable one that may be changed. The change begins at
/// `at`, where what is no place is refused.
pub fn may_change(scope: &Scope, at: u32, expr: &Expr) -> Result<(), TypeAnswer>
    ensures { Finds (if_mutable at scope.now (parted expr.now) (root_of expr.now.what) (Ok tt)) result }
{
    let Some(name) = root_name(expr) else {
        return Err(wrong_call(at));
    };
    if !is_mutable(scope, name.as_slice()) {
        return Err(not_mutable(expr.at));
    }
    Ok(())
}

/// The types that the arguments after the first have to have, of a call that changes a first one of a
/// type. It has to be a place that may be changed.
#[tactic(auto, using(crate::proofs::Changing::if_changed))]
pub fn change_asked(
    alloc: Global,
    scope: &Scope,
    at: u32,
    call: CallName,
    first: &Expr,
    kind: &SplType,
) -> Result<Items<SplType>, TypeAnswer>
    ensures { Finds (change_asked at scope.now (parted first.now) (level_changed call (out-SplType kind.now))) result }
{
    let Some(kinds) = on_changed(alloc, call, kind)? else {
        return Err(wrong_call(at));
    };
    may_change(scope, at, first)?;
    Ok(kinds)
}

/// What a call gives, unless it changes its first argument.
pub type Gives = Option<(BuiltIn, Boxed<SplType>)>;

/// What a call gives, and the types that the arguments after the first have to have.
pub type Asked = (Gives, Items<SplType>);

/// The length of a text.
fn length_asked(alloc: Global) -> Result<Asked, TypeAnswer>
    ensures { Finds (Ok (Some (Q.Length, int32), [])) result }
{
    let kind = Boxed::new(alloc, SplType::Int(IntKind::I32))?;
    Ok((Some((BuiltIn::Length, kind)), Items::new(alloc)))
}

/// A part of a text.
fn substring_asked(alloc: Global) -> Result<Asked, TypeAnswer>
    ensures { Finds (Ok (Some (Q.Substring, S.Text), int32 ∷ int32 ∷ [])) result }
{
    let mut others = one_type(alloc, &SplType::Int(IntKind::I32))?;
    others.push(SplType::Int(IntKind::I32))?;
    let kind = Boxed::new(alloc, SplType::Text)?;
    Ok((Some((BuiltIn::Substring, kind)), others))
}

/// A call on a first argument of a type, which has to be one of its class.
fn value_asked(
    alloc: Global,
    at: u32,
    call: CallName,
    kind: Boxed<SplType>,
) -> Result<Asked, TypeAnswer>
    ensures { Finds (value_asked at (level_first call kind (out-SplType kind))) result }
{
    match on_first(alloc, call, kind)? {
        Some((built_in, kind, others)) => Ok((Some((built_in, kind)), others)),
        None => Err(wrong_call(at)),
    }
}

/// What a call is on a first argument of a type.
fn asked_of(
    alloc: Global,
    scope: &Scope,
    at: u32,
    call: CallName,
    first: &Expr,
    kind: Boxed<SplType>,
) -> Result<Asked, TypeAnswer>
    ensures { Finds (asked at scope.now call (parted first.now) kind) result }
{
    match call {
        CallName::AppendM | CallName::RemoveM | CallName::ClearM => {
            let kinds = change_asked(alloc, scope, at, call, first, kind.get())?;
            Ok((None, kinds))
        }
        CallName::Length => length_asked(alloc),
        CallName::Substring => substring_asked(alloc),
        CallName::Size
        | CallName::Has
        | CallName::Abs
        | CallName::Min
        | CallName::Max
        | CallName::CurrentPunct => value_asked(alloc, at, call, kind),
    }
}

/// What a call is on its first argument, and the code of that in front of the others.
pub fn behind_first(
    alloc: Global,
    scope: &Scope,
    at: u32,
    call: CallName,
    first: &Expr,
    typed: Typed,
) -> Result<(Gives, Items<SplType>, Codes), TypeAnswer>
    ensures asked { FindsBy (λ p. (p.0, p.1)) (asked at scope.now call (parted first.now) typed.kind) result }
    ensures front { IfOk result (λ p. p.2 ≡ typed.code ∷ []) }
{
    let Typed { kind, code } = typed;
    let (gives, others) = asked_of(alloc, scope, at, call, first, kind)?;
    let front = one_code(alloc, code)?;
    Ok((gives, others, front))
}

/// The type that a call wants of its first argument, where it wants one.
pub fn first_wanted(alloc: Global, call: CallName) -> Result<Option<Boxed<SplType>>, TypeAnswer>
    ensures { Finds (Ok (first_for call)) result }
{
    match call {
        CallName::Length | CallName::Substring => Ok(Some(Boxed::new(alloc, SplType::Text)?)),
        CallName::Size
        | CallName::Has
        | CallName::AppendM
        | CallName::RemoveM
        | CallName::ClearM
        | CallName::Abs
        | CallName::Min
        | CallName::Max
        | CallName::CurrentPunct => Ok(None),
    }
}

/// The first argument of a call and the others, where there are as many as it has.
pub fn argument_row(at: u32, call: CallName, all: &[Expr]) -> Result<(&Expr, &[Expr]), TypeAnswer>
    ensures found { FindsBy (λ p. (parted p.0.now, parts p.1.now)) (row_for at call (parts all.now)) result }
    ensures row { IfOk result (λ p. all.now ≡ p.0.now ∷ p.1.now) }
{
    if all.len() != argument_count(call) {
        return Err(wrong_call(at));
    }
    match all.split_first() {
        Some((first, rest)) => Ok((first, rest)),
        None => Err(wrong_call(at)),
    }
}

/// A row of one code.
fn one_code(alloc: Global, code: Boxed<Code<Slot>>) -> Result<Codes, TypeAnswer>
    ensures { Finds (Ok (code ∷ [])) result }
{
    let mut codes = Items::new(alloc);
    codes.push(code.into_inner())?;
    Ok(codes)
}

fn call_typed(
    alloc: Global,
    call: BuiltIn,
    kind: Boxed<SplType>,
    codes: Codes,
) -> Result<Typed, TypeAnswer>
    ensures { Finds (Ok (typed kind (C.BuiltIn call codes))) result }
{
    let code = Boxed::new(alloc, Code::BuiltIn(call, codes))?;
    Ok(Typed { kind, code })
}

/// What a call gives on these arguments. One that changes a place gives no value, and is refused for
/// that once all else about it is right.
pub fn given(alloc: Global, at: u32, gives: Gives, codes: Codes) -> Result<Typed, TypeAnswer>
    ensures { Finds (given at gives codes) result }
{
    match gives {
        Some((call, kind)) => call_typed(alloc, call, kind, codes),
        None => Err(mismatch(at)),
    }
}
