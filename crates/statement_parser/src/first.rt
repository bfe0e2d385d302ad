//! What the first token is.
ghost use Rattle.std.specs.Prelude.{◌≡◌, false, MatchOption, IfOk};
ghost use Rattle.expr_parser.specs.Taken.{begins_with, Taken, TakenAs};
ghost use Rattle.spl_tree.specs.Operators.{assignment_of, assignment_symbol};
ghost use Rattle.statement_parser.specs.Gives.{PassesWord, PassesDollar};
ghost use Rattle.statement_parser.specs.steps.GivesTypes.{TypeFirst};
ghost use Rattle.statement_parser.specs.Lines.{is_word, is_assignment, assignment_at, keyword_type};

use expr_parser::Stop;
use spl_tree::{BinaryOperator, Keyword, Placed, Symbol, Token, TokenKind, TypeExpr, TypeKind};
use spl_value::{Items, Name};
use std::alloc::Global;

fn is_word(token: &Token, word: Keyword) -> bool
    ensures { result ≡ is_word word token.now }
{
    match &token.kind {
        TokenKind::Keyword(other) => word.word() == other.word(),
        _ => false,
    }
}

/// The first token, where it is the reserved word, and the tokens after it.
pub fn word_first(ts: &[Token], word: Keyword) -> Option<(&Token, &[Token])>
    ensures { MatchOption result (begins_with (is_word word) ts.now ≡ false)
        (λ found. Taken (is_word word) ts.now found.0.now found.1.now) }
{
    let (token, rest) = ts.split_first()?;
    if is_word(token, word) {
        Some((token, rest))
    } else {
        None
    }
}

/// The tokens after a reserved word that has to come first.
pub fn pass_word<'t>(ts: &'t [Token], word: Keyword) -> Result<&'t [Token], Stop<'t>>
    ensures { PassesWord word ts.now result }
{
    match word_first(ts, word) {
        Some((_, rest)) => Ok(rest),
        None => Err(Stop::At(ts)),
    }
}

/// A name after `$` that has to come first, with its place, and the tokens after it.
pub fn pass_dollar<'t>(
    alloc: Global,
    ts: &'t [Token],
) -> Result<(Placed<Name>, &'t [Token]), Stop<'t>>
    ensures { PassesDollar ts.now result }
{
    let Some((token, rest)) = ts.split_first() else {
        return Err(Stop::At(ts));
    };
    match &token.kind {
        TokenKind::Dollar(name) => {
            let at = token.start;
            let what = Items::from_slice(alloc, name.as_slice())?;
            Ok((Placed { at, what }, rest))
        }
        _ => Err(Stop::At(ts)),
    }
}

fn keyword_type(word: Keyword) -> Option<TypeKind>
    ensures { result ≡ keyword_type word }
{
    match word {
        Keyword::Boolean => Some(TypeKind::Boolean),
        Keyword::Rstring => Some(TypeKind::Rstring),
        Keyword::Int(kind) => Some(TypeKind::Int(kind)),
        Keyword::LeftOut(word) => Some(TypeKind::LeftOut(word)),
        _ => None,
    }
}

/// The type that the first token is by itself, where it is one, and the tokens after it.
pub(crate) fn type_first<'t>(
    alloc: Global,
    ts: &'t [Token],
) -> Result<Option<(TypeExpr, &'t [Token])>, Stop<'t>>
    ensures { TypeFirst ts.now result }
{
    let Some((token, rest)) = ts.split_first() else {
        return Ok(None);
    };
    let what = match &token.kind {
        TokenKind::Word(name) => TypeKind::Name(Items::from_slice(alloc, name.as_slice())?),
        TokenKind::Keyword(word) => match keyword_type(*word) {
            Some(what) => what,
            None => return Ok(None),
        },
        _ => return Ok(None),
    };
    let kind = Placed::boxed(alloc, token.start, what)?;
    Ok(Some((kind, rest)))
}

fn assignment_symbol(symbol: Symbol) -> Option<Option<BinaryOperator>>
    ensures { result ≡ assignment_symbol symbol }
{
    match symbol {
        Symbol::Assign => Some(None),
        Symbol::PlusAssign => Some(Some(BinaryOperator::Add)),
        Symbol::MinusAssign => Some(Some(BinaryOperator::Subtract)),
        Symbol::StarAssign => Some(Some(BinaryOperator::Multiply)),
        Symbol::SlashAssign => Some(Some(BinaryOperator::Divide)),
        Symbol::PercentAssign => Some(Some(BinaryOperator::Remainder)),
        _ => None,
    }
}

fn assignment(kind: &TokenKind) -> Option<Option<BinaryOperator>>
    ensures { result ≡ assignment_of kind.now }
{
    match kind {
        TokenKind::Symbol(symbol) => assignment_symbol(*symbol),
        _ => None,
    }
}

/// The operator of the assignment that the first token is, none for `=`, and the tokens after it.
pub(crate) fn assignment_first(ts: &[Token]) -> Option<(Option<BinaryOperator>, &[Token])>
    ensures { MatchOption result (begins_with is_assignment ts.now ≡ false)
        (λ found. TakenAs is_assignment assignment_at ts.now found.0 found.1.now) }
{
    let (token, rest) = ts.split_first()?;
    let operator = assignment(&token.kind)?;
    Some((operator, rest))
}
