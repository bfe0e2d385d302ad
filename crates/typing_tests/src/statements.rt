//! Texts of assignments and calls, without their `;`, against the statements that they are.
ghost use Rattle.std.specs.Prelude.{◌≤◌, length};

pub(crate) mod tables;

use expr_parser::parse_expr;
use graph_texts::statements::add_statement;
use language_model::{Scope, TypeAnswer};
use language_texts::{Unanswered, expr_from, tokens_of};
use spl_tree::{BinaryOperator, Expr, Statement, Symbol, Token, TokenKind, Tokens};
use std::alloc::Global;
use test_texts::text::Text;
use type_rules::{assignment_of, call_of, compound_of};

// The operator in front of the `=` of an assignment, or `None` at a plain one.
fn operator_of(token: &Token) -> Result<Option<BinaryOperator>, Unanswered> {
    match &token.kind {
        TokenKind::Symbol(Symbol::Assign) => Ok(None),
        TokenKind::Symbol(Symbol::PlusAssign) => Ok(Some(BinaryOperator::Add)),
        TokenKind::Symbol(Symbol::MinusAssign) => Ok(Some(BinaryOperator::Subtract)),
        TokenKind::Symbol(Symbol::StarAssign) => Ok(Some(BinaryOperator::Multiply)),
        TokenKind::Symbol(Symbol::SlashAssign) => Ok(Some(BinaryOperator::Divide)),
        TokenKind::Symbol(Symbol::PercentAssign) => Ok(Some(BinaryOperator::Remainder)),
        _ => Err(Unanswered::Unread("more than an expression")),
    }
}

// Adds a statement, where it is found.
fn add_found(found: Result<Statement, TypeAnswer>, out: &mut Text) -> Result<(), Unanswered> {
    match found {
        Ok(statement) => {
            add_statement(out, &statement);
            Ok(())
        }
        Err(answer) => Err(Unanswered::Untyped(answer)),
    }
}

// Adds the assignment of a value to a place, with the operator in front of its `=`.
fn add_assignment(
    alloc: Global,
    scope: &Scope,
    place: &Expr,
    operator: Option<BinaryOperator>,
    value: &Expr,
    out: &mut Text,
) -> Result<(), Unanswered> {
    match operator {
        Some(operator) => add_found(compound_of(alloc, scope, operator, place, value), out),
        None => add_found(assignment_of(alloc, scope, place, value), out),
    }
}

// Adds the call that the expression in front of the token `next` is, or else the assignment to it.
fn add_behind(
    alloc: Global,
    scope: &Scope,
    tokens: &Tokens,
    left: &Expr,
    next: u32,
    out: &mut Text,
) -> Result<(), Unanswered>
    requires { length tokens.now.list ≤ 1048576 }
{
    let Some(token) = tokens.list.get(next as usize) else {
        return add_found(call_of(alloc, scope, left), out);
    };
    let operator = operator_of(token)?;
    let value = expr_from(alloc, tokens, next + 1)?;
    add_assignment(alloc, scope, left, operator, &value, out)
}

/// Adds the assignment or the call that a text is in a scope.
pub(crate) fn add_statement_in(
    alloc: Global,
    scope: Result<Scope, Unanswered>,
    text: &str,
    out: &mut Text,
) -> Result<(), Unanswered> {
    let scope = scope?;
    let tokens = tokens_of(alloc, text)?;
    match parse_expr(alloc, &tokens, 0) {
        Ok(parsed) => add_behind(alloc, &scope, &tokens, &parsed.expr, parsed.next, out),
        Err(_) => Err(Unanswered::Unread("no expression")),
    }
}
