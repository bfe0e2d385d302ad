//! Texts of expressions against their types and codes, or their refusals.
pub(crate) mod changes;
pub(crate) mod integers;
pub(crate) mod literals;
pub(crate) mod names;
pub(crate) mod operators;
pub(crate) mod scoped;

use graph_texts::codes::add_code;
use language_model::{Scope, TypeAnswer, Typed};
use language_texts::{Unanswered, expr_of, type_named};
use spl_tree::Expr;
use spl_value::{SplType, copy_type, default_of, same_type};
use std::alloc::Global;
use test_texts::rows::row_of;
use test_texts::text::Text;
use test_texts::types::add_type;
use test_texts::values::add_value;
use type_rules::type_of;

// Adds a type and a code, where they are found.
fn add_typed(found: Result<Typed, TypeAnswer>, out: &mut Text) -> Result<(), Unanswered> {
    match found {
        Ok(typed) => {
            add_type(out, typed.kind.get());
            out.add(" | ");
            add_code(out, typed.code.get());
            Ok(())
        }
        Err(answer) => Err(Unanswered::Untyped(answer)),
    }
}

// Adds the type and the code of an expression where its place wants a type.
fn add_typed_as(
    alloc: Global,
    scope: &Scope,
    expr: &Expr,
    wanted: &str,
    out: &mut Text,
) -> Result<(), Unanswered> {
    let wanted = type_named(alloc, wanted)?;
    add_typed(type_of(alloc, scope, expr, Some(&wanted)), out)
}

/// Adds the type and the code of the expression that a text is in a scope.
pub(crate) fn add_typed_in(
    alloc: Global,
    scope: Result<Scope, Unanswered>,
    text: &str,
    out: &mut Text,
) -> Result<(), Unanswered> {
    let (text, wanted) = match text.split_once(" -> ") {
        Some((text, wanted)) => (text, Some(wanted)),
        None => (text, None),
    };
    let scope = scope?;
    let expr = expr_of(alloc, text)?;
    match wanted {
        Some(wanted) => add_typed_as(alloc, &scope, &expr, wanted, out),
        None => add_typed(type_of(alloc, &scope, &expr, None), out),
    }
}

/// Adds the type that a text writes.
pub(crate) fn add_written(alloc: Global, text: &str, out: &mut Text) -> Result<(), Unanswered> {
    add_type(out, &type_named(alloc, text)?);
    Ok(())
}

// Whether a type is the same as a copy of the type that a text writes.
fn is_like(alloc: Global, kind: &SplType, text: &str) -> Option<bool> {
    let other = type_named(alloc, text).ok()?;
    let copied = copy_type(alloc, &other).ok()?;
    Some(same_type(kind, &copied))
}

// Adds the types of a table that are the same as this one, but for its own row, or this one where it isn't the
// same as its copy.
fn add_alike(alloc: Global, table: &str, kind: &SplType, own: &str, out: &mut Text) {
    for line in table.lines() {
        if let Some((text, _)) = row_of(line)
            && is_like(alloc, kind, text) != Some(text == own)
        {
            out.add("not unlike ");
            out.add(text);
        }
    }
}

/// Adds the default of the type that a row of a table writes, and the rows that are wrongly like it or unlike.
pub(crate) fn add_default(
    alloc: Global,
    table: &str,
    text: &str,
    out: &mut Text,
) -> Result<(), Unanswered> {
    let kind = type_named(alloc, text)?;
    add_alike(alloc, table, &kind, text, out);
    add_value(out, &default_of(alloc, &kind)?);
    Ok(())
}
