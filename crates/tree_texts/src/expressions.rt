//! Expressions as texts.
use crate::operators::{add_prefixes, operator_text};
use crate::{ROOM, add_name};
use spl_tree::{Expr, ExprKind, Field, Number, Step};
use spl_value::IntKind;
use test_texts::text::Text;

// What comes after the digits of a literal of that type.
fn suffix(kind: IntKind) -> &'static str {
    match kind {
        IntKind::I8 => "b",
        IntKind::I16 => "h",
        IntKind::I32 => "",
        IntKind::I64 => "l",
        IntKind::U8 => "ub",
        IntKind::U16 => "uh",
        IntKind::U32 => "u",
        IntKind::U64 => "ul",
    }
}

fn add_literal(text: &mut Text, number: Number) {
    text.add_number(i128::from(number.value));
    text.add(suffix(number.kind));
}

// Adds an expression without expressions in it.
fn add_simple(text: &mut Text, what: &ExprKind) {
    match what {
        ExprKind::Name(name) => text.add_bytes(name.as_slice()),
        ExprKind::Dollar(name) => {
            text.add("$");
            text.add_bytes(name.as_slice());
        }
        ExprKind::Number(number) => add_literal(text, *number),
        ExprKind::Text(bytes) => {
            text.add("'");
            text.add_bytes(bytes.as_slice());
            text.add("'");
        }
        ExprKind::Bool(true) => text.add("true"),
        ExprKind::Bool(false) => text.add("false"),
        _ => {}
    }
}

/// Adds an expression.
pub fn add_expression(text: &mut Text, expr: &Expr) {
    expression_within(text, ROOM, expr);
}

/// Adds expressions with commas between them.
pub fn add_expressions(text: &mut Text, exprs: &[Expr]) {
    expressions_within(text, ROOM, exprs);
}

/// Adds names with their values, with commas between them.
pub fn add_fields(text: &mut Text, fields: &[Field<Expr>]) {
    fields_within(text, ROOM, fields);
}

// Adds an expression that nests at most `room` deep.
#[cycle(expressions)]
fn expression_within(text: &mut Text, room: u32, expr: &Expr) {
    let Some(room) = room.checked_sub(1) else {
        return text.add("..");
    };
    text.add_at(expr.at);
    match expr.what.get() {
        ExprKind::Group(inner) => {
            text.add("<");
            expression_within(text, room, inner);
            text.add(">");
        }
        ExprKind::List(items) => {
            text.add("[");
            expressions_within(text, room, items.as_slice());
            text.add("]");
        }
        ExprKind::Map(entries) => {
            text.add("{");
            entries_within(text, room, entries.as_slice());
            text.add("}");
        }
        ExprKind::Tuple(fields) => {
            text.add("{");
            fields_within(text, room, fields.as_slice());
            text.add("}");
        }
        ExprKind::Call(name, arguments) => {
            text.add_bytes(name.as_slice());
            text.add("(");
            expressions_within(text, room, arguments.as_slice());
            text.add(")");
        }
        ExprKind::Select(base, steps) => {
            text.add("(");
            expression_within(text, room, base);
            steps_within(text, room, steps.as_slice());
            text.add(")");
        }
        ExprKind::Unary(prefixes, operand) => {
            text.add("(");
            add_prefixes(text, prefixes.as_slice());
            expression_within(text, room, operand);
            text.add(")");
        }
        ExprKind::Binary(operator, left, right) => {
            text.add("(");
            expression_within(text, room, left);
            text.add(" ");
            text.add(operator_text(*operator));
            text.add(" ");
            expression_within(text, room, right);
            text.add(")");
        }
        ExprKind::Conditional(test, first, second) => {
            text.add("(");
            expression_within(text, room, test);
            text.add(" ? ");
            expression_within(text, room, first);
            text.add(" : ");
            expression_within(text, room, second);
            text.add(")");
        }
        what => add_simple(text, what),
    }
}

#[cycle(expressions)]
fn expressions_within(text: &mut Text, room: u32, exprs: &[Expr]) {
    for (at, expr) in exprs.iter().enumerate() {
        text.add_between(at, ", ");
        expression_within(text, room, expr);
    }
}

#[cycle(expressions)]
fn entries_within(text: &mut Text, room: u32, entries: &[(Expr, Expr)]) {
    for (at, entry) in entries.iter().enumerate() {
        text.add_between(at, ", ");
        expression_within(text, room, &entry.0);
        text.add(" : ");
        expression_within(text, room, &entry.1);
    }
}

#[cycle(expressions)]
fn fields_within(text: &mut Text, room: u32, fields: &[Field<Expr>]) {
    for (at, field) in fields.iter().enumerate() {
        text.add_between(at, ", ");
        add_name(text, &field.name);
        text.add(" = ");
        expression_within(text, room, &field.value);
    }
}

#[cycle(expressions)]
fn steps_within(text: &mut Text, room: u32, steps: &[Step<Expr>]) {
    for step in steps {
        match step {
            Step::Member(name) => {
                text.add(".");
                add_name(text, name);
            }
            Step::Index(index) => {
                text.add("[");
                expression_within(text, room, index);
                text.add("]");
            }
        }
    }
}
