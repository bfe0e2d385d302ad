//! What operators are on operands of a type.
ghost use Rattle.std.specs.Prelude.{◌≡◌, drop, reverse, Ok};
ghost use Rattle.std.specs.Option.{option_copied, option_or};
ghost use Rattle.spl_tree.specs.declared.code.Code.TheVariants as C;
ghost use Rattle.spl_value.specs.declared.types.SplType.TheViews.{out-SplType};
ghost use Rattle.language_model.specs.declared.scope.Typed.{Typed};
ghost use Rattle.language_model.specs.Typing.{Found, integer_operator, order_operator, level_operator, level_prefix, level_in, prefixes_at, prefixes_typed, typed, after};
ghost use Rattle.language_model.specs.parts.Typing.{on_integers, ordering_of, branch_wanted};
ghost use Rattle.language_model.specs.Finds.{Finds, FindsBy};
ghost use Rattle.call_rules.specs.Operands.{right_for, operation_given, same_given};

use crate::kinds::{held_of, is_same};
use language_model::{TypeAnswer, Typed, mismatch};
use spl_tree::{
    BinaryCode, BinaryOperator, CastTarget, Code, IntegerOperator, OrderOperator, Prefix,
    PrefixOperator, Slot, UnaryCode,
};
use spl_value::{Boxed, IntKind, Items, SplType};
use std::alloc::Global;

/// The operator of two integers that gives an integer.
fn integer_operator(operator: BinaryOperator) -> Option<IntegerOperator>
    ensures { result ≡ integer_operator operator }
{
    match operator {
        BinaryOperator::Multiply => Some(IntegerOperator::Multiply),
        BinaryOperator::Divide => Some(IntegerOperator::Divide),
        BinaryOperator::Remainder => Some(IntegerOperator::Remainder),
        BinaryOperator::Add => Some(IntegerOperator::Add),
        BinaryOperator::Subtract => Some(IntegerOperator::Subtract),
        BinaryOperator::BitAnd => Some(IntegerOperator::BitAnd),
        BinaryOperator::BitXor => Some(IntegerOperator::BitXor),
        BinaryOperator::BitOr => Some(IntegerOperator::BitOr),
        _ => None,
    }
}

/// The operator that asks for an order.
fn order_operator(operator: BinaryOperator) -> Option<OrderOperator>
    ensures { result ≡ order_operator operator }
{
    match operator {
        BinaryOperator::Less => Some(OrderOperator::Less),
        BinaryOperator::LessOrEqual => Some(OrderOperator::LessOrEqual),
        BinaryOperator::Greater => Some(OrderOperator::Greater),
        BinaryOperator::GreaterOrEqual => Some(OrderOperator::GreaterOrEqual),
        _ => None,
    }
}

fn on_order(operator: BinaryOperator) -> Option<(BinaryCode, SplType)>
    ensures { result ≡ ordering_of (order_operator operator) }
{
    let order = order_operator(operator)?;
    Some((BinaryCode::Order(order), SplType::Bool))
}

fn on_integers(operator: BinaryOperator, kind: IntKind) -> Option<(BinaryCode, SplType)>
    ensures { result ≡ option_or (on_integers kind (integer_operator operator)) (ordering_of (order_operator operator)) }
{
    match integer_operator(operator) {
        Some(integer) => Some((BinaryCode::Integers(integer, kind), SplType::Int(kind))),
        None => on_order(operator),
    }
}

/// What an operator is on a left operand of a type, with the type that it gives: its operands are of
/// one type.
pub fn operator_on(operator: BinaryOperator, left: &SplType) -> Option<(BinaryCode, SplType)>
    ensures { result ≡ level_operator operator (out-SplType left.now) }
{
    match (operator, left) {
        (BinaryOperator::Equal, _) => Some((BinaryCode::Equal, SplType::Bool)),
        (BinaryOperator::NotEqual, _) => Some((BinaryCode::NotEqual, SplType::Bool)),
        (BinaryOperator::And, SplType::Bool) => Some((BinaryCode::And, SplType::Bool)),
        (BinaryOperator::Or, SplType::Bool) => Some((BinaryCode::Or, SplType::Bool)),
        (BinaryOperator::Add, SplType::Text) => Some((BinaryCode::Join, SplType::Text)),
        (_, SplType::Int(kind)) => on_integers(operator, *kind),
        (_, SplType::Text) => on_order(operator),
        _ => None,
    }
}

/// What a prefix operator or a cast is on a type, with the type that it gives.
fn prefix_on(operator: PrefixOperator, kind: &SplType) -> Option<(UnaryCode, SplType)>
    ensures { result ≡ level_prefix operator (out-SplType kind.now) }
{
    match (operator, kind) {
        (PrefixOperator::Not, SplType::Bool) => Some((UnaryCode::Not, SplType::Bool)),
        (PrefixOperator::Negate, SplType::Int(kind)) => {
            Some((UnaryCode::Negate(*kind), SplType::Int(*kind)))
        }
        (PrefixOperator::Complement, SplType::Int(kind)) => {
            Some((UnaryCode::Complement(*kind), SplType::Int(*kind)))
        }
        (PrefixOperator::Cast(CastTarget::Int(target)), SplType::Int(_)) => {
            Some((UnaryCode::ToInteger(target), SplType::Int(target)))
        }
        (PrefixOperator::Cast(CastTarget::Text), SplType::Int(_) | SplType::Bool) => {
            Some((UnaryCode::ToText, SplType::Text))
        }
        _ => None,
    }
}

/// Where prefixes from a place of their row on and their operand begin.
fn begin(prefixes: &[Prefix], from: usize, operand: u32) -> u32
    ensures { result ≡ prefixes_at (drop from prefixes.now) operand }
{
    match prefixes.get(from) {
        Some(prefix) => prefix.at,
        None => operand,
    }
}

fn outermost_first(codes: Items<UnaryCode>) -> Items<UnaryCode>
    ensures { result ≡ reverse codes }
{
    let mut codes = codes.into_vec();
    codes.reverse();
    Items::from_vec(codes)
}

/// The codes of prefixes on an operand of a type, the outermost first, and the type that they give.
/// The innermost that doesn't fit is refused, where its own operand begins.
fn prefixes_on(
    alloc: Global,
    prefixes: &[Prefix],
    operand: u32,
    kind: Boxed<SplType>,
) -> Result<(Items<UnaryCode>, Boxed<SplType>), TypeAnswer>
    ensures { Finds (prefixes_typed prefixes.now operand kind) result }
{
    let mut codes = Items::new(alloc);
    let mut kind = kind;
    let mut at = prefixes.len();
    'prefixes: while at > 0 {
        let begin = begin(prefixes, at, operand);
        at -= 1;
        let prefix = &prefixes[at];
        let Some((code, given)) = prefix_on(prefix.what, kind.get()) else {
            return Err(mismatch(begin));
        };
        kind = Boxed::new(alloc, given)?;
        codes.push(code)?;
    }
    Ok((outermost_first(codes), kind))
}

/// Prefixes on an operand that begins at a place, and its type and code, where these were found.
pub fn prefixed(
    alloc: Global,
    prefixes: &[Prefix],
    at: u32,
    operand: Result<Typed, TypeAnswer>,
) -> Result<Typed, TypeAnswer>
    ensures { (o : Found Typed) → Finds o operand → Finds (after o (λ x. after (prefixes_typed prefixes.now at x.kind) (λ xs. Ok (typed xs.1 (C.Unary xs.0 x.code))))) result }
{
    match operand {
        Ok(typed) => with_prefixes(alloc, prefixes, at, typed),
        Err(answer) => Err(answer),
    }
}

fn with_prefixes(
    alloc: Global,
    prefixes: &[Prefix],
    at: u32,
    operand: Typed,
) -> Result<Typed, TypeAnswer>
    ensures { Finds (after (prefixes_typed prefixes.now at operand.kind) (λ xs. Ok (typed xs.1 (C.Unary xs.0 operand.code)))) result }
{
    let Typed { kind, code } = operand;
    let (codes, kind) = prefixes_on(alloc, prefixes, at, kind)?;
    let code = Boxed::new(alloc, Code::Unary(codes, code))?;
    Ok(Typed { kind, code })
}

/// The type that is wanted of an operator's right operand, where one is: that of the left one, which
/// stands at a place and has to be one that the operator is on.
pub fn right_wanted(
    operator: BinaryOperator,
    at: u32,
    left: &SplType,
) -> Result<Option<&SplType>, TypeAnswer>
    ensures { FindsBy option_copied (right_for at operator left.now) result }
{
    match operator {
        BinaryOperator::In => Ok(None),
        _ => match operator_on(operator, left) {
            Some(_) => Ok(Some(left)),
            None => Err(mismatch(at)),
        },
    }
}

/// An operator on two operands that stand at these places.
pub fn operation_of(
    alloc: Global,
    operator: BinaryOperator,
    left_at: u32,
    left: Typed,
    right_at: u32,
    right: Typed,
) -> Result<Typed, TypeAnswer>
    ensures { Finds (operation_given left_at right_at left right operator) result }
{
    match operator {
        BinaryOperator::In => in_typed(alloc, left, right, right_at),
        _ => same_typed(alloc, operator, left_at, left, right),
    }
}

/// An operator on two operands of one type.
fn same_typed(
    alloc: Global,
    operator: BinaryOperator,
    at: u32,
    left: Typed,
    right: Typed,
) -> Result<Typed, TypeAnswer>
    ensures { Finds (same_given at left right (level_operator operator (out-SplType left.kind))) result }
{
    let Some((operator, kind)) = operator_on(operator, left.kind.get()) else {
        return Err(mismatch(at));
    };
    let kind = Boxed::new(alloc, kind)?;
    binary(alloc, kind, operator, left, right)
}

/// The type that is wanted of a conditional's second branch: the wanted one, or else the first one's.
pub fn branch_wanted<'t>(wanted: Option<&'t SplType>, first: &'t SplType) -> Option<&'t SplType>
    ensures { option_copied result ≡ branch_wanted (option_copied wanted.entry) first.now }
{
    match wanted {
        Some(kind) => Some(kind),
        None => Some(first),
    }
}

/// `in`: a value is looked for in a list of its type, or in a map with keys of its type. The right
/// operand stands at that place.
fn in_typed(alloc: Global, left: Typed, right: Typed, at: u32) -> Result<Typed, TypeAnswer>
    ensures { Finds (level_in left right.code at (out-SplType right.kind)) result }
{
    match held_of(right.kind.get()) {
        Some((code, held)) if is_same(left.kind.get(), held) => {
            let kind = Boxed::new(alloc, SplType::Bool)?;
            binary(alloc, kind, code, left, right)
        }
        _ => Err(mismatch(at)),
    }
}

/// An operator of two operands, with the type that it gives.
pub fn binary(
    alloc: Global,
    kind: Boxed<SplType>,
    operator: BinaryCode,
    left: Typed,
    right: Typed,
) -> Result<Typed, TypeAnswer>
    ensures { Finds (Ok (typed kind (C.Binary operator left.code right.code))) result }
{
    let code = Boxed::new(alloc, Code::Binary(operator, left.code, right.code))?;
    Ok(Typed { kind, code })
}
