//! Texts, read as expressions and as units.
ghost use Rattle.std.specs.Prelude.{◌≡◌, ◌≤◌, flat_map, length, IfOk, Ok};
ghost use Rattle.spl_tree.specs.Tokens.{tokens};
ghost use Rattle.language_texts.specs.Readings.{IsExprOfBytes, IsUnitOfBytes, IsWhole};

use crate::unanswered::Unanswered;
use expr_parser::{ParsedExpr, SyntaxAnswer, parse_expr};
use spl_lexer::lex;
use spl_tree::{Definition, Expr, Stmt, Tokens, Unit};
use std::alloc::Global;
use unit_parser::parse_unit;

/// The tokens of a text.
pub fn tokens_of(alloc: Global, text: &str) -> Result<Tokens, Unanswered>
    ensures few { IfOk result (λ found. length found.list ≤ 1048576) }
    ensures lexed { IfOk result (λ found. tokens text.now ≡ Ok found) }
{
    let Ok(tokens) = lex(alloc, text.as_bytes()) else {
        return Err(Unanswered::Unread("no tokens"));
    };
    if tokens.list.len() > 1_048_576 {
        return Err(Unanswered::Unread("too many tokens"));
    }
    Ok(tokens)
}

/// The expression that the tokens are from one of them on.
pub fn expr_from(alloc: Global, tokens: &Tokens, from: u32) -> Result<Expr, Unanswered>
    requires few { length tokens.now.list ≤ 1048576 }
    requires within { from ≤ length tokens.now.list }
    ensures { IfOk result (λ expr. IsWhole tokens.now from expr) }
{
    let Ok(ParsedExpr { expr, next }) = parse_expr(alloc, tokens, from) else {
        return Err(Unanswered::Unread("no expression"));
    };
    if (next as usize) < tokens.list.len() {
        return Err(Unanswered::Unread("more than an expression"));
    }
    Ok(expr)
}

/// The expression that a whole text is.
pub fn expr_of(alloc: Global, text: &str) -> Result<Expr, Unanswered>
    ensures { IfOk result (λ expr. IsExprOfBytes text.now expr) }
{
    let tokens = tokens_of(alloc, text)?;
    expr_from(alloc, &tokens, 0)
}

/// The unit that pieces of a text are, one after another.
pub fn unit_of(alloc: Global, pieces: &[&str]) -> Result<Unit, Unanswered>
    ensures { IfOk result (λ unit. IsUnitOfBytes (flat_map (λ piece. piece.now) pieces.now) unit) }
{
    let text = pieces.concat(alloc)?;
    let tokens = tokens_of(alloc, text.as_str())?;
    match parse_unit(alloc, &tokens) {
        Ok(unit) => Ok(unit),
        Err(SyntaxAnswer::Unexpected(at)) => Err(Unanswered::Unexpected(at)),
        Err(_) => Err(Unanswered::Unread("no unit")),
    }
}

/// The statements of the function with that name, or none where the unit has no such function.
pub fn body_named<'u>(unit: &'u Unit, name: &str) -> &'u [Stmt] {
    for definition in unit.as_slice() {
        if let Definition::Function(function) = definition {
            if function.name.what.as_slice() == name.as_bytes() {
                return function.body.as_slice();
            }
        }
    }
    &[]
}
