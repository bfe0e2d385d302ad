//! What the first token is.
ghost use Rattle.std.specs.Prelude.{◌≡◌, ◌+◌, true, false, MatchOption, IfOk};
ghost use Rattle.spl_tree.specs.Operators.{prefix_of, target_of, binary_of, binary_symbol, level};
ghost use Rattle.expr_parser.specs.Taken.{begins_with, Taken, TakenAs};
ghost use Rattle.expr_parser.specs.Lines.{is, is_name, name_of, is_literal, literal_of, is_prefix, prefix_token, is_target, cast_token, is_operator, operator_of};
ghost use Rattle.expr_parser.specs.Gives.{Passes, PassesName};

use crate::stop::Stop;
use spl_tree::{
    BinaryOperator, CastTarget, Expr, ExprKind, Keyword, Placed, Prefix, PrefixOperator, Symbol,
    Token, TokenKind,
};
use spl_value::{Items, Name, NoMemory};
use std::alloc::Global;

fn is(token: &Token, symbol: Symbol) -> bool
    ensures { result ≡ is symbol token.now }
{
    match &token.kind {
        TokenKind::Symbol(other) => symbol == *other,
        _ => false,
    }
}

/// The first token, where it is the symbol, and the tokens after it.
pub fn symbol_first(ts: &[Token], symbol: Symbol) -> Option<(&Token, &[Token])>
    ensures { MatchOption result (begins_with (is symbol) ts.now ≡ false)
        (λ found. Taken (is symbol) ts.now found.0.now found.1.now) }
{
    let (token, rest) = ts.split_first()?;
    if is(token, symbol) {
        Some((token, rest))
    } else {
        None
    }
}

/// The tokens after a symbol that has to come first.
pub fn pass<'t>(ts: &'t [Token], symbol: Symbol) -> Result<&'t [Token], Stop<'t>>
    ensures { Passes symbol ts.now result }
{
    match symbol_first(ts, symbol) {
        Some((_, rest)) => Ok(rest),
        None => Err(Stop::At(ts)),
    }
}

/// A name that has to come first, with its place, and the tokens after it.
pub fn pass_name<'t>(
    alloc: Global,
    ts: &'t [Token],
) -> Result<(Placed<Name>, &'t [Token]), Stop<'t>>
    ensures { PassesName ts.now result }
{
    match name_first(ts) {
        Some((token, name, rest)) => {
            let at = token.start;
            let what = Items::from_slice(alloc, name.as_slice())?;
            Ok((Placed { at, what }, rest))
        }
        None => Err(Stop::At(ts)),
    }
}

/// The first token, where it is a name, with the name and the tokens after it.
pub fn name_first(ts: &[Token]) -> Option<(&Token, &Name, &[Token])>
    ensures { MatchOption result (begins_with is_name ts.now ≡ false)
        (λ found. Taken is_name ts.now found.0.now found.2.now × (found.1.now ≡ name_of found.0.now)) }
{
    let (token, rest) = ts.split_first()?;
    match &token.kind {
        TokenKind::Word(name) => Some((token, name, rest)),
        _ => None,
    }
}

/// The first token, where it is an expression by itself, and the tokens after it.
pub(crate) fn literal_first(ts: &[Token]) -> Option<(&Token, &[Token])>
    ensures { MatchOption result (begins_with is_literal ts.now ≡ false)
        (λ found. Taken is_literal ts.now found.0.now found.1.now) }
{
    let (token, rest) = ts.split_first()?;
    match &token.kind {
        TokenKind::Dollar(_)
        | TokenKind::Number(_)
        | TokenKind::Text(_)
        | TokenKind::Keyword(Keyword::True)
        | TokenKind::Keyword(Keyword::False) => Some((token, rest)),
        _ => None,
    }
}

/// The expression that the token is by itself.
pub(crate) fn literal(alloc: Global, token: &Token) -> Result<Expr, NoMemory>
    requires { is_literal token.now ≡ true }
    ensures { IfOk result (λ expr. expr ≡ literal_of token.now) }
{
    let what = match &token.kind {
        TokenKind::Dollar(name) => ExprKind::Dollar(Items::from_slice(alloc, name.as_slice())?),
        TokenKind::Number(number) => ExprKind::Number(*number),
        TokenKind::Text(bytes) => ExprKind::Text(Items::from_slice(alloc, bytes.as_slice())?),
        TokenKind::Keyword(Keyword::True) => ExprKind::Bool(true),
        _ => ExprKind::Bool(false),
    };
    Ok(Placed::boxed(alloc, token.start, what)?)
}

fn prefix_operator(kind: &TokenKind) -> Option<PrefixOperator>
    ensures { result ≡ prefix_of kind.now }
{
    match kind {
        TokenKind::Symbol(Symbol::Exclamation) => Some(PrefixOperator::Not),
        TokenKind::Symbol(Symbol::Minus) => Some(PrefixOperator::Negate),
        TokenKind::Symbol(Symbol::Tilde) => Some(PrefixOperator::Complement),
        _ => None,
    }
}

/// The prefix operator that the first token is, and the tokens after it.
pub(crate) fn prefix_first(ts: &[Token]) -> Option<(Prefix, &[Token])>
    ensures { MatchOption result (begins_with is_prefix ts.now ≡ false)
        (λ found. TakenAs is_prefix prefix_token ts.now found.0 found.1.now) }
{
    let (token, rest) = ts.split_first()?;
    let what = prefix_operator(&token.kind)?;
    let at = token.start;
    Some((Placed { at, what }, rest))
}

fn cast_target(kind: &TokenKind) -> Option<CastTarget>
    ensures { result ≡ target_of kind.now }
{
    match kind {
        TokenKind::Keyword(Keyword::Int(kind)) => Some(CastTarget::Int(*kind)),
        TokenKind::Keyword(Keyword::Rstring) => Some(CastTarget::Text),
        _ => None,
    }
}

/// The type that the first token names, where an expression can be cast to it, as a prefix at the
/// place, and the tokens after it.
pub(crate) fn cast_first(ts: &[Token], at: u32) -> Option<(Prefix, &[Token])>
    ensures { MatchOption result (begins_with is_target ts.now ≡ false)
        (λ found. TakenAs is_target (cast_token at) ts.now found.0 found.1.now) }
{
    let (token, rest) = ts.split_first()?;
    let target = cast_target(&token.kind)?;
    Some((
        Placed {
            at,
            what: PrefixOperator::Cast(target),
        },
        rest,
    ))
}

fn binary_operator(kind: &TokenKind) -> Option<BinaryOperator>
    ensures { result ≡ binary_of kind.now }
{
    match kind {
        TokenKind::Symbol(symbol) => binary_symbol(*symbol),
        TokenKind::Keyword(Keyword::In) => Some(BinaryOperator::In),
        _ => None,
    }
}

fn binary_symbol(symbol: Symbol) -> Option<BinaryOperator>
    ensures { result ≡ binary_symbol symbol }
{
    match symbol {
        Symbol::Star => Some(BinaryOperator::Multiply),
        Symbol::Slash => Some(BinaryOperator::Divide),
        Symbol::Percent => Some(BinaryOperator::Remainder),
        Symbol::Plus => Some(BinaryOperator::Add),
        Symbol::Minus => Some(BinaryOperator::Subtract),
        Symbol::Less => Some(BinaryOperator::Less),
        Symbol::LessOrEqual => Some(BinaryOperator::LessOrEqual),
        Symbol::Greater => Some(BinaryOperator::Greater),
        Symbol::GreaterOrEqual => Some(BinaryOperator::GreaterOrEqual),
        Symbol::Equal => Some(BinaryOperator::Equal),
        Symbol::NotEqual => Some(BinaryOperator::NotEqual),
        Symbol::Ampersand => Some(BinaryOperator::BitAnd),
        Symbol::Caret => Some(BinaryOperator::BitXor),
        Symbol::Pipe => Some(BinaryOperator::BitOr),
        Symbol::DoubleAmpersand => Some(BinaryOperator::And),
        Symbol::DoublePipe => Some(BinaryOperator::Or),
        _ => None,
    }
}

fn level(operator: BinaryOperator) -> u32
    ensures { result ≡ level operator }
{
    match operator {
        BinaryOperator::Multiply | BinaryOperator::Divide | BinaryOperator::Remainder => 1,
        BinaryOperator::Add | BinaryOperator::Subtract => 2,
        BinaryOperator::Less
        | BinaryOperator::LessOrEqual
        | BinaryOperator::Greater
        | BinaryOperator::GreaterOrEqual
        | BinaryOperator::In => 3,
        BinaryOperator::Equal | BinaryOperator::NotEqual => 4,
        BinaryOperator::BitAnd => 5,
        BinaryOperator::BitXor => 6,
        BinaryOperator::BitOr => 7,
        BinaryOperator::And => 8,
        BinaryOperator::Or => 9,
    }
}

/// The operator of that level that the first token is, and the tokens after it.
pub(crate) fn operator_first(ts: &[Token], at_level: u32) -> Option<(BinaryOperator, &[Token])>
    ensures { MatchOption result (begins_with (is_operator at_level) ts.now ≡ false)
        (λ found. TakenAs (is_operator at_level) operator_of ts.now found.0 found.1.now) }
{
    let (token, rest) = ts.split_first()?;
    let operator = binary_operator(&token.kind)?;
    if level(operator) == at_level {
        Some((operator, rest))
    } else {
        None
    }
}
