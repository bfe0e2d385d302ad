//! Statements. `depth` is how deep statements may still nest in one another. Beside a statement stands
//! whether it is closed: whether an `else` after it would belong to none of its own `if`.
ghost use Rattle.std.specs.Prelude.{[]};
ghost use Rattle.statement_parser.specs.Gives.{Gives, Comes};
ghost use Rattle.statement_parser.specs.Lines as lines;
ghost use Rattle.statement_parser.specs.Lines.{braces_rule, for_rule, last_branch_rule, while_rule};

use crate::first::word_first;
use crate::simple::{condition, else_first, for_head, simple_statement, statement_at};
use expr_parser::{Stop, Taken, pass, symbol_first};
use spl_tree::{Block, Expr, Keyword, MOST_NESTED, Stmt, StmtKind, Symbol, Token};
use spl_value::Items;
use std::alloc::Global;

/// Statements between braces.
pub fn block<'t>(alloc: Global, ts: &'t [Token]) -> Taken<'t, Block>
    ensures { Gives lines.Block ts.now result }
{
    let behind = pass(ts, Symbol::LeftBrace)?;
    statements(alloc, MOST_NESTED, behind)
}

/// Statements up to the closing brace.
#[cycle(statements)]
fn statements<'t>(alloc: Global, depth: u32, ts: &'t [Token]) -> Taken<'t, Block>
    ensures { Gives (lines.Statements []) ts.now result }
{
    let mut all = Items::new(alloc);
    let mut at = ts;
    'statements: loop {
        if let Some((_, behind)) = symbol_first(at, Symbol::RightBrace) {
            return Ok((all, behind));
        }
        let ((one, _), behind) = statement(alloc, depth, at)?;
        all.push(one)?;
        at = behind;
    }
}

/// A statement.
#[cycle(statements)]
fn statement<'t>(alloc: Global, depth: u32, ts: &'t [Token]) -> Taken<'t, (Stmt, bool)>
    ensures { Gives lines.Statement ts.now result }
{
    match word_first(ts, Keyword::If) {
        Some((word, behind)) => arms(alloc, depth, word.start, behind),
        None => other(alloc, depth, ts),
    }
}

/// A statement inside another one.
#[cycle(statements)]
fn nested<'t>(alloc: Global, depth: u32, ts: &'t [Token]) -> Taken<'t, (Stmt, bool)>
    ensures { Gives lines.Statement ts.now result }
{
    if depth == 0 {
        return Err(Stop::Memory);
    }
    statement(alloc, depth - 1, ts)
}

/// A statement that is no `if`.
#[cycle(statements)]
fn other<'t>(alloc: Global, depth: u32, ts: &'t [Token]) -> Taken<'t, (Stmt, bool)>
    ensures { Gives lines.Other ts.now result }
{
    if let Some((open, behind)) = symbol_first(ts, Symbol::LeftBrace) {
        return braces(alloc, depth, open.start, behind);
    }
    if let Some((word, behind)) = word_first(ts, Keyword::While) {
        return while_loop(alloc, depth, word.start, behind);
    }
    match word_first(ts, Keyword::For) {
        Some((word, behind)) => for_loop(alloc, depth, word.start, behind),
        None => simple_statement(alloc, ts),
    }
}

/// A block, after its opening brace.
#[cycle(statements)]
fn braces<'t>(alloc: Global, depth: u32, at: u32, ts: &'t [Token]) -> Taken<'t, (Stmt, bool)>
    ensures { Comes (braces_rule at) ts.now result }
{
    let Some(depth) = depth.checked_sub(1) else {
        return Err(Stop::Memory);
    };
    let (inside, behind) = statements(alloc, depth, ts)?;
    statement_at(alloc, at, StmtKind::Block(inside), true, behind)
}

/// A `while`, after its word.
#[cycle(statements)]
fn while_loop<'t>(alloc: Global, depth: u32, at: u32, ts: &'t [Token]) -> Taken<'t, (Stmt, bool)>
    ensures { Comes (while_rule at) ts.now result }
{
    let (condition, behind) = condition(alloc, ts)?;
    let ((body, closed), behind) = nested(alloc, depth, behind)?;
    statement_at(alloc, at, StmtKind::While(condition, body), closed, behind)
}

/// A `for`, after its word.
#[cycle(statements)]
fn for_loop<'t>(alloc: Global, depth: u32, at: u32, ts: &'t [Token]) -> Taken<'t, (Stmt, bool)>
    ensures { Comes (for_rule at) ts.now result }
{
    let ((variable, over), behind) = for_head(alloc, ts)?;
    let ((body, closed), behind) = nested(alloc, depth, behind)?;
    statement_at(
        alloc,
        at,
        StmtKind::For(variable, over, body),
        closed,
        behind,
    )
}

/// The conditions of an `if` and of each `else if` after it, with their statements, and the statement
/// of an `else`.
#[cycle(statements)]
fn arms<'t>(alloc: Global, depth: u32, at: u32, ts: &'t [Token]) -> Taken<'t, (Stmt, bool)>
    ensures { Gives (lines.Arms at []) ts.now result }
{
    let mut all = Items::new(alloc);
    let mut left = ts;
    'arms: loop {
        let (condition, behind) = condition(alloc, left)?;
        let ((body, closed), behind) = nested(alloc, depth, behind)?;
        all.push((condition, body))?;
        let Some(behind) = else_first(closed, behind) else {
            return statement_at(alloc, at, StmtKind::If(all, None), false, behind);
        };
        let Some((_, behind)) = word_first(behind, Keyword::If) else {
            return last_branch(alloc, depth, at, all, behind);
        };
        left = behind;
    }
}

/// The statement after the last `else` of an `if`.
#[cycle(statements)]
fn last_branch<'t>(
    alloc: Global,
    depth: u32,
    at: u32,
    arms: Items<(Expr, Stmt)>,
    ts: &'t [Token],
) -> Taken<'t, (Stmt, bool)>
    ensures { Comes (last_branch_rule at arms) ts.now result }
{
    let Some(depth) = depth.checked_sub(1) else {
        return Err(Stop::Memory);
    };
    let ((body, closed), behind) = other(alloc, depth, ts)?;
    statement_at(alloc, at, StmtKind::If(arms, Some(body)), closed, behind)
}
