//! The code of bodies.
ghost use Rattle.std.specs.Prelude.{◌≡◌, ◌++◌, ◌∷◌, [], OnOk, length};
ghost use Rattle.language_model.specs.BodyTyping.{alone, arms_typing, body_typing, row_typing};
ghost use Rattle.language_model.specs.parts.BodyTyping.{for_typing, other_typing, part_stated, stated};
ghost use Rattle.body_rules.specs.steps.Choices.{block_typing, if_typing, while_typing};
ghost use Rattle.language_model.specs.BodyTypingLaws.{arms_stated, other_stated, row_stated};
ghost use Rattle.body_rules.specs.steps.Leads.{Leads, shortened};
ghost use Rattle.body_rules.specs.Settings.{setting_meant};
ghost use Rattle.language_model.specs.Finds.{Finds};

mod parts;
mod results;
mod submits;
mod variables;

use language_model::{Port, Scope, TypeAnswer};
use parts::{assigned, condition, declared, leave_loop, over, returned};
pub use results::ends_with_result;
use spl_tree::{Attribute, Body, Code, Expr, Slot, Statement, Stmt, StmtKind, TypeExpr};
use spl_value::{Boxed, Items, SplType};
use std::alloc::{AllocError, Global};
use submits::submitted;
use type_rules::call_of;
pub(crate) use variables::{add_variable, drop_variables};
use written_types::{TypeScope, type_boxed};

/// What a body is that of.
#[derive(Clone, Copy)]
pub enum BodyPurpose<'s> {
    /// A function, with the type of its result where it has one.
    Function(Option<&'s SplType>),
    /// A handler, with the output ports to which it may submit.
    Handler(&'s [Port]),
}

/// Where a body stands.
#[derive(Clone, Copy)]
pub struct BodySetting<'s, 'u> {
    pub types: TypeScope<'s, 'u>,
    pub purpose: BodyPurpose<'s>,
}

/// The code of a body's statements in a scope.
///
/// Where it has none, the answer is `Refused`, with the first refusal in the order of the text.
/// `Memory` is as that of `type_of`. Whatever the answer, the scope is as before after it.
pub fn body_of(
    alloc: Global,
    setting: &BodySetting,
    scope: &mut Scope,
    statements: &[Stmt],
) -> Result<Body, TypeAnswer>
    ensures code { Finds (body_typing (setting_meant setting.now) scope.old statements.now) result }
    ensures same_scope { scope.new ≡ scope.old }
{
    row(alloc, setting, false, scope, statements)
}

/// Statements one after another. What they declare ends with them, or with the first refusal.
#[cycle(bodies)]
fn row(
    alloc: Global,
    setting: &BodySetting,
    inside: bool,
    scope: &mut Scope,
    statements: &[Stmt],
) -> Result<Body, TypeAnswer>
    ensures code { Finds (row_typing (setting_meant setting.now) inside scope.old (row_stated statements.now)) result }
    ensures same_scope { scope.new ≡ scope.old }
{
    let before = scope.vars.len();
    let body = statements_of(alloc, setting, inside, scope, statements);
    drop_variables(scope, before);
    body
}

/// The same. What they declare stays after the variables that there were.
#[cycle(bodies)]
fn statements_of(
    alloc: Global,
    setting: &BodySetting,
    inside: bool,
    scope: &mut Scope,
    statements: &[Stmt],
) -> Result<Body, TypeAnswer>
    ensures code { Finds (row_typing (setting_meant setting.now) inside scope.old (row_stated statements.now)) result }
    ensures longer { shortened (length scope.old.vars) scope.new ≡ scope.old }
{
    let mut body = Items::new(alloc);
    for statement in statements {
        let next = statement_of(alloc, setting, inside, scope, statement)?;
        body.push(next)?;
    }
    Ok(body)
}

/// A branch, or what a loop repeats.
#[cycle(bodies)]
fn alone(
    alloc: Global,
    setting: &BodySetting,
    inside: bool,
    scope: &mut Scope,
    statement: &Stmt,
) -> Result<Body, TypeAnswer>
    ensures code { Finds (alone (setting_meant setting.now) inside scope.old (stated statement.now)) result }
    ensures same_scope { scope.new ≡ scope.old }
{
    let before = scope.vars.len();
    let answer = statement_of(alloc, setting, inside, scope, statement);
    drop_variables(scope, before);
    let only = answer?;
    let mut body = Items::new(alloc);
    body.push(only)?;
    Ok(body)
}

/// The branches of an `if`, each with its condition.
#[cycle(bodies)]
fn branches(
    alloc: Global,
    setting: &BodySetting,
    inside: bool,
    scope: &mut Scope,
    arms: &[(Expr, Stmt)],
) -> Result<Items<(Code<Slot>, Body)>, TypeAnswer>
    ensures code { Finds (arms_typing (setting_meant setting.now) inside scope.old (arms_stated arms.now)) result }
    ensures same_scope { scope.new ≡ scope.old }
{
    let mut branches = Items::new(alloc);
    for arm in arms {
        let code = condition(alloc, scope, &arm.0)?;
        let body = alone(alloc, setting, inside, scope, &arm.1)?;
        push_branch(&mut branches, code, body)?;
    }
    Ok(branches)
}

/// Adds a branch with its condition.
fn push_branch(
    branches: &mut Items<(Code<Slot>, Body)>,
    code: Boxed<Code<Slot>>,
    body: Body,
) -> Result<(), AllocError>
    ensures ok { OnOk result (branches.new ≡ branches.old ++ (code, body) ∷ []) }
{
    branches.push((code.into_inner(), body))
}

/// The statement of the last `else`, where there is one.
#[cycle(bodies)]
fn otherwise(
    alloc: Global,
    setting: &BodySetting,
    inside: bool,
    scope: &mut Scope,
    other: &Option<Stmt>,
) -> Result<Body, TypeAnswer>
    ensures code { Finds (other_typing (setting_meant setting.now) inside scope.old (other_stated other.now)) result }
    ensures same_scope { scope.new ≡ scope.old }
{
    match other {
        None => Ok(Items::new(alloc)),
        Some(statement) => alone(alloc, setting, inside, scope, statement),
    }
}

/// A `for`, whose variable can't be changed and ends with it.
#[cycle(bodies)]
fn for_each(
    alloc: Global,
    setting: &BodySetting,
    scope: &mut Scope,
    variable: &Attribute<TypeExpr>,
    values: &Expr,
    body: &Stmt,
) -> Result<Statement, TypeAnswer>
    ensures code { Finds (for_typing (setting_meant setting.now) scope.old variable.now values.now (stated body.now)) result }
    ensures same_scope { scope.new ≡ scope.old }
{
    let kind = type_boxed(alloc, &setting.types, &variable.kind)?;
    let code = over(alloc, scope, kind.get(), values)?;
    let before = scope.vars.len();
    add_variable(alloc, scope, false, &variable.name.what, kind)?;
    let answer = alone(alloc, setting, true, scope, body);
    drop_variables(scope, before);
    let row = answer?;
    Ok(Statement::For(code.into_inner(), row))
}

/// Statements between braces.
#[cycle(bodies)]
fn block(
    alloc: Global,
    setting: &BodySetting,
    inside: bool,
    scope: &mut Scope,
    statements: &[Stmt],
) -> Result<Statement, TypeAnswer>
    ensures code { Finds (block_typing (setting_meant setting.now) inside scope.old (row_stated statements.now)) result }
    ensures same_scope { scope.new ≡ scope.old }
{
    let row = row(alloc, setting, inside, scope, statements)?;
    Ok(Statement::Block(row))
}

/// An `if`, with the statement of its last `else`.
#[cycle(bodies)]
fn choice(
    alloc: Global,
    setting: &BodySetting,
    inside: bool,
    scope: &mut Scope,
    arms: &[(Expr, Stmt)],
    other: &Option<Stmt>,
) -> Result<Statement, TypeAnswer>
    ensures code { Finds (if_typing (setting_meant setting.now) inside scope.old (arms_stated arms.now) (other_stated other.now)) result }
    ensures same_scope { scope.new ≡ scope.old }
{
    let branches = branches(alloc, setting, inside, scope, arms)?;
    let other = otherwise(alloc, setting, inside, scope, other)?;
    Ok(Statement::If(branches, other))
}

/// A `while`.
#[cycle(bodies)]
fn repeated(
    alloc: Global,
    setting: &BodySetting,
    scope: &mut Scope,
    test: &Expr,
    statement: &Stmt,
) -> Result<Statement, TypeAnswer>
    ensures code { Finds (while_typing (setting_meant setting.now) scope.old test.now (stated statement.now)) result }
    ensures same_scope { scope.new ≡ scope.old }
{
    let code = condition(alloc, scope, test)?;
    let row = alone(alloc, setting, true, scope, statement)?;
    Ok(Statement::While(code.into_inner(), row))
}

/// A statement. A declaration adds its variable to the scope.
#[cycle(bodies)]
fn statement_of(
    alloc: Global,
    setting: &BodySetting,
    inside: bool,
    scope: &mut Scope,
    statement: &Stmt,
) -> Result<Statement, TypeAnswer>
    ensures code { Leads (part_stated (stated statement.now) (setting_meant setting.now) inside scope.old) result scope.new }
    ensures longer { shortened (length scope.old.vars) scope.new ≡ scope.old }
{
    let at = statement.at;
    match statement.what.get() {
        StmtKind::Block(statements) => {
            block(alloc, setting, inside, scope, statements.as_slice())
        }
        StmtKind::Declare(declaration) => declared(alloc, setting, scope, declaration),
        StmtKind::Assign(place, operator, value) => {
            assigned(alloc, scope, place, *operator, value)
        }
        StmtKind::Call(call) => call_of(alloc, scope, call),
        StmtKind::If(arms, other) => {
            choice(alloc, setting, inside, scope, arms.as_slice(), other)
        }
        StmtKind::While(test, body) => repeated(alloc, setting, scope, test, body),
        StmtKind::For(variable, values, body) => {
            for_each(alloc, setting, scope, variable, values, body)
        }
        StmtKind::Break => {
            leave_loop(at, inside)?;
            Ok(Statement::Break)
        }
        StmtKind::Continue => {
            leave_loop(at, inside)?;
            Ok(Statement::Continue)
        }
        StmtKind::Return(value) => returned(alloc, at, &setting.purpose, scope, value.as_ref()),
        StmtKind::Submit(value, stream) => { submitted(alloc, at, setting, scope, value, stream) }
    }
}
