//! Parts of statements, and statements without statements in them.
ghost use Rattle.std.specs.Prelude.{[]};
ghost use Rattle.expr_parser.specs.Gives.{Answers};
ghost use Rattle.expr_parser.specs.Lines as expressions;
ghost use Rattle.expr_parser.specs.Rules.{done};
ghost use Rattle.spl_tree.specs.declared.expression.ExprKind.TheVariants as X;
ghost use Rattle.spl_tree.specs.declared.statement.StmtKind.TheVariants as Z;
ghost use Rattle.spl_tree.specs.Trees.{placed};
ghost use Rattle.statement_parser.specs.Gives.{Gives, Comes};
ghost use Rattle.statement_parser.specs.steps.GivesStatements.{ElseBehind, assigned_rule, called_rule, condition, ended_rule as statement_ended_rule, for_head, for_variable, gone_over, named_rule, variable_rule as named_variable_rule};
ghost use Rattle.statement_parser.specs.Lines as lines;
ghost use Rattle.statement_parser.specs.Lines.{ended_rule, mutable_rule, returned_rule, simple_rule, submitted_rule, variable_rule};

use crate::declarations::{declared, valued};
use crate::first::{assignment_first, pass_word, word_first};
use crate::sequence::{closed, expression_before, expression_between, name_before};
use crate::types::{read_attribute, read_type};
use expr_parser::{
    Stop, Taken, name_first, pass, pass_name, read_elements, read_steps, symbol_first,
};
use spl_tree::{
    Attribute, Expr, ExprKind, Keyword, Placed, Stmt, StmtKind, Symbol, Token, TypeExpr, TypeKind,
};
use spl_value::{Items, Name};
use std::alloc::Global;

/// A condition in parentheses.
pub(crate) fn condition<'t>(alloc: Global, ts: &'t [Token]) -> Taken<'t, Expr>
    ensures { Comes condition ts.now result }
{
    expression_between(alloc, Symbol::LeftParen, Symbol::RightParen, ts)
}

/// The tokens after an `else` that comes first, where one can belong to the `if` whose last statement
/// stands before it: an `else` that could belong to that statement itself was taken with it.
pub(crate) fn else_first(closed: bool, ts: &[Token]) -> Option<&[Token]>
    ensures { ElseBehind closed ts.now result }
{
    if !closed {
        return None;
    }
    let (_, behind) = word_first(ts, Keyword::Else)?;
    Some(behind)
}

/// The variable of a `for` and what it goes over, in parentheses.
pub(crate) fn for_head<'t>(alloc: Global, ts: &'t [Token]) -> Taken<'t, (Attribute<TypeExpr>, Expr)>
    ensures { Comes for_head ts.now result }
{
    let (variable, behind) = for_variable(alloc, ts)?;
    let (over, behind) = gone_over(alloc, behind)?;
    Ok(((variable, over), behind))
}

/// The opening parenthesis of a `for` and its variable: a type with a name.
fn for_variable<'t>(alloc: Global, ts: &'t [Token]) -> Taken<'t, Attribute<TypeExpr>>
    ensures { Comes for_variable ts.now result }
{
    let behind = pass(ts, Symbol::LeftParen)?;
    read_attribute(alloc, behind)
}

/// What a `for` goes over, after its variable, and the closing parenthesis.
fn gone_over<'t>(alloc: Global, ts: &'t [Token]) -> Taken<'t, Expr>
    ensures { Comes gone_over ts.now result }
{
    let behind = pass_word(ts, Keyword::In)?;
    expression_before(alloc, Symbol::RightParen, behind)
}

/// The statement of that kind at a place, with whether it is closed.
pub(crate) fn statement_at<'t>(
    alloc: Global,
    at: u32,
    what: StmtKind,
    closed: bool,
    ts: &'t [Token],
) -> Taken<'t, (Stmt, bool)>
    ensures { Comes (done (placed at what, closed)) ts.now result }
{
    let statement = Placed::boxed(alloc, at, what)?;
    Ok(((statement, closed), ts))
}

/// A statement with no statement in it.
pub(crate) fn simple_statement<'t>(alloc: Global, ts: &'t [Token]) -> Taken<'t, (Stmt, bool)>
    ensures { Comes simple_rule ts.now result }
{
    if let Some((word, behind)) = word_first(ts, Keyword::Break) {
        return ended(alloc, word.start, StmtKind::Break, behind);
    }
    if let Some((word, behind)) = word_first(ts, Keyword::Continue) {
        return ended(alloc, word.start, StmtKind::Continue, behind);
    }
    if let Some((word, behind)) = word_first(ts, Keyword::Return) {
        return returned(alloc, word.start, behind);
    }
    if let Some((word, behind)) = word_first(ts, Keyword::Submit) {
        return submitted(alloc, word.start, behind);
    }
    if let Some((word, behind)) = word_first(ts, Keyword::Mutable) {
        return mutable_variable(alloc, word.start, behind);
    }
    named_statement(alloc, ts)
}

/// A statement that begins with a name, or else with a type.
fn named_statement<'t>(alloc: Global, ts: &'t [Token]) -> Taken<'t, (Stmt, bool)>
    ensures { Comes named_rule ts.now result }
{
    match name_first(ts) {
        Some((token, name, behind)) => {
            let name = Items::from_slice(alloc, name.as_slice())?;
            let (statement, behind) = begun(alloc, token.start, name, behind)?;
            Ok(((statement, true), behind))
        }
        None => variable(alloc, ts),
    }
}

/// The statement of that kind at a place, and its `;`.
fn statement_ended<'t>(alloc: Global, at: u32, what: StmtKind, ts: &'t [Token]) -> Taken<'t, Stmt>
    ensures { Comes (statement_ended_rule at what) ts.now result }
{
    let statement = Placed::boxed(alloc, at, what)?;
    closed(statement, Symbol::Semicolon, ts)
}

/// The same, with that it is closed.
fn ended<'t>(alloc: Global, at: u32, what: StmtKind, ts: &'t [Token]) -> Taken<'t, (Stmt, bool)>
    ensures { Comes (ended_rule at what) ts.now result }
{
    let statement = Placed::boxed(alloc, at, what)?;
    closed((statement, true), Symbol::Semicolon, ts)
}

/// The statement of that kind at a place.
fn statement_made<'t>(alloc: Global, at: u32, what: StmtKind, ts: &'t [Token]) -> Taken<'t, Stmt>
    ensures { Comes (done (placed at what)) ts.now result }
{
    let statement = Placed::boxed(alloc, at, what)?;
    Ok((statement, ts))
}

/// A `return`, after its word.
fn returned<'t>(alloc: Global, at: u32, ts: &'t [Token]) -> Taken<'t, (Stmt, bool)>
    ensures { Comes (returned_rule at) ts.now result }
{
    if let Some((_, behind)) = symbol_first(ts, Symbol::Semicolon) {
        return statement_at(alloc, at, StmtKind::Return(None), true, behind);
    }
    let (value, behind) = expression_before(alloc, Symbol::Semicolon, ts)?;
    statement_at(alloc, at, StmtKind::Return(Some(value)), true, behind)
}

/// A `submit`, after its word.
fn submitted<'t>(alloc: Global, at: u32, ts: &'t [Token]) -> Taken<'t, (Stmt, bool)>
    ensures { Comes (submitted_rule at) ts.now result }
{
    let (value, behind) = expression_between(alloc, Symbol::LeftParen, Symbol::Comma, ts)?;
    let (stream, behind) = name_before(alloc, Symbol::RightParen, behind)?;
    ended(alloc, at, StmtKind::Submit(value, stream), behind)
}

/// A declaration as a statement, after its `mutable`.
fn mutable_variable<'t>(alloc: Global, at: u32, ts: &'t [Token]) -> Taken<'t, (Stmt, bool)>
    ensures { Comes (mutable_rule at) ts.now result }
{
    let (kind, behind) = read_type(alloc, ts)?;
    let (declaration, behind) = declared(alloc, true, kind, behind)?;
    statement_at(alloc, at, StmtKind::Declare(declaration), true, behind)
}

/// A declaration as a statement, without `mutable`.
fn variable<'t>(alloc: Global, ts: &'t [Token]) -> Taken<'t, (Stmt, bool)>
    ensures { Comes variable_rule ts.now result }
{
    let (kind, behind) = read_type(alloc, ts)?;
    let at = kind.at;
    let (declaration, behind) = declared(alloc, false, kind, behind)?;
    statement_at(alloc, at, StmtKind::Declare(declaration), true, behind)
}

/// A statement, after the name with which it begins: a declaration, a call or an assignment.
fn begun<'t>(alloc: Global, at: u32, name: Name, ts: &'t [Token]) -> Taken<'t, Stmt>
    ensures { Gives (lines.Begun at name) ts.now result }
{
    if name_first(ts).is_some() {
        let (variable, behind) = pass_name(alloc, ts)?;
        return variable_begun(alloc, at, name, variable, behind);
    }
    match symbol_first(ts, Symbol::LeftParen) {
        Some((_, behind)) => called(alloc, at, name, behind),
        None => assigned(alloc, at, name, ts),
    }
}

/// A declaration as a statement, after the name of its type and that of the variable.
fn variable_begun<'t>(
    alloc: Global,
    at: u32,
    name: Name,
    variable: Placed<Name>,
    ts: &'t [Token],
) -> Taken<'t, Stmt>
    ensures { Comes (named_variable_rule at name variable) ts.now result }
{
    let kind = Placed::boxed(alloc, at, TypeKind::Name(name))?;
    let (declaration, behind) = valued(alloc, false, kind, variable, ts)?;
    statement_made(alloc, at, StmtKind::Declare(declaration), behind)
}

/// A call as a statement, after its parenthesis.
fn called<'t>(alloc: Global, at: u32, name: Name, ts: &'t [Token]) -> Taken<'t, Stmt>
    ensures { Comes (called_rule at name) ts.now result }
{
    let (arguments, behind) = read_elements(alloc, Symbol::RightParen, ts)?;
    let call = Placed::boxed(alloc, at, ExprKind::Call(name, arguments))?;
    statement_ended(alloc, at, StmtKind::Call(call), behind)
}

/// A place, after the name with which it begins.
fn place<'t>(alloc: Global, at: u32, name: Name, ts: &'t [Token]) -> Taken<'t, Expr>
    ensures { Answers (expressions.Steps (placed at (X.Name name)) []) ts.now result }
{
    let base = Placed::boxed(alloc, at, ExprKind::Name(name))?;
    read_steps(alloc, base, ts)
}

/// An assignment, after the name of its place.
fn assigned<'t>(alloc: Global, at: u32, name: Name, ts: &'t [Token]) -> Taken<'t, Stmt>
    ensures { Comes (assigned_rule at name) ts.now result }
{
    let (place, behind) = place(alloc, at, name, ts)?;
    let Some((operator, behind)) = assignment_first(behind) else {
        return Err(Stop::At(behind));
    };
    let (value, behind) = expression_before(alloc, Symbol::Semicolon, behind)?;
    statement_made(alloc, at, StmtKind::Assign(place, operator, value), behind)
}
