//! Statements as texts.
use crate::expressions::add_expression;
use crate::operators::operator_text;
use crate::types::add_type;
use crate::{ROOM, add_name};
use spl_tree::{Declaration, Expr, Stmt, StmtKind};
use test_texts::text::Text;

/// Adds a declaration, without what ends it.
pub fn add_declaration(text: &mut Text, declaration: &Declaration) {
    if declaration.mutable {
        text.add("mutable ");
    }
    add_type(text, &declaration.kind);
    text.add(" ");
    add_name(text, &declaration.name);
    if let Some(value) = &declaration.value {
        text.add(" = ");
        add_expression(text, value);
    }
}

/// Adds a block: statements in braces.
pub fn add_block(text: &mut Text, statements: &[Stmt]) {
    block_within(text, ROOM, statements);
}

// Adds a block that nests at most `room` deep.
#[cycle(statements)]
fn block_within(text: &mut Text, room: u32, statements: &[Stmt]) {
    text.add("{");
    for (at, statement) in statements.iter().enumerate() {
        text.add_between(at, " ");
        statement_within(text, room, statement);
    }
    text.add("}");
}

#[cycle(statements)]
fn statement_within(text: &mut Text, room: u32, statement: &Stmt) {
    let Some(room) = room.checked_sub(1) else {
        return text.add("..");
    };
    text.add_at(statement.at);
    match statement.what.get() {
        StmtKind::Block(inside) => block_within(text, room, inside.as_slice()),
        StmtKind::If(arms, other) => {
            arms_within(text, room, arms.as_slice());
            if let Some(other) = other {
                text.add(" else [");
                statement_within(text, room, other);
                text.add("]");
            }
        }
        StmtKind::While(condition, body) => {
            text.add("while (");
            add_expression(text, condition);
            text.add(") [");
            statement_within(text, room, body);
            text.add("]");
        }
        StmtKind::For(variable, over, body) => {
            text.add("for (");
            add_type(text, &variable.kind);
            text.add(" ");
            add_name(text, &variable.name);
            text.add(" in ");
            add_expression(text, over);
            text.add(") [");
            statement_within(text, room, body);
            text.add("]");
        }
        what => {
            add_simple(text, what);
            text.add(";");
        }
    }
}

// The conditions and statements of an `if`.
#[cycle(statements)]
fn arms_within(text: &mut Text, room: u32, arms: &[(Expr, Stmt)]) {
    for (at, arm) in arms.iter().enumerate() {
        text.add_between(at, " else ");
        text.add("if (");
        add_expression(text, &arm.0);
        text.add(") [");
        statement_within(text, room, &arm.1);
        text.add("]");
    }
}

// A statement without statements in it, and without what ends it.
fn add_simple(text: &mut Text, what: &StmtKind) {
    match what {
        StmtKind::Declare(declaration) => add_declaration(text, declaration),
        StmtKind::Assign(place, operator, value) => {
            add_expression(text, place);
            text.add(" ");
            if let Some(operator) = operator {
                text.add(operator_text(*operator));
            }
            text.add("= ");
            add_expression(text, value);
        }
        StmtKind::Call(call) => add_expression(text, call),
        StmtKind::Break => text.add("break"),
        StmtKind::Continue => text.add("continue"),
        StmtKind::Return(None) => text.add("return"),
        StmtKind::Return(Some(value)) => {
            text.add("return ");
            add_expression(text, value);
        }
        StmtKind::Submit(value, stream) => {
            text.add("submit(");
            add_expression(text, value);
            text.add(", ");
            add_name(text, stream);
            text.add(")");
        }
        _ => {}
    }
}
