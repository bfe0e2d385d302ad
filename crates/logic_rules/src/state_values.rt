//! Which expressions may be first values of the state.
ghost use Rattle.std.specs.Prelude.{◌≡◌, ◌&&◌};
ghost use Rattle.std.specs.List.{list_all};
ghost use Rattle.language_model.specs.LogicTyping.{plain_parameter};
ghost use Rattle.language_model.specs.parts.LogicTyping.{is_minus_prefix, is_state_value};
ghost use Rattle.language_model.specs.Scopes.{dollar_of};

use crate::plain_codes::is_plain;
use language_model::{Dollar, dollar_named};
use spl_tree::{Expr, ExprKind, Field, Prefix, PrefixOperator};

/// Whether the value of the `$` parameter of the name is made of literals. True too where it has none,
/// or one that is refused: the refusal is given where the parameter is used.
fn is_plain_parameter(dollars: &[Dollar], name: &[u8]) -> bool
    ensures { result ≡ plain_parameter (dollar_of dollars.now name.now) }
{
    match dollar_named(dollars, name) {
        Some(Ok(typed)) => is_plain(typed.code.get()),
        _ => true,
    }
}

fn is_minus_prefix(prefix: &Prefix) -> bool
    ensures { result ≡ is_minus_prefix prefix.now }
{
    matches!(prefix.what, PrefixOperator::Negate)
}

fn are_minus_prefixes(prefixes: &[Prefix]) -> bool
    ensures { result ≡ list_all is_minus_prefix prefixes.now }
{
    for prefix in prefixes {
        if !is_minus_prefix(prefix) {
            return false;
        }
    }
    true
}

/// Whether an expression is one of literals and `-`, and of lists, maps and tuples of such, in
/// parentheses or not.
#[cycle(state_values)]
#[tactic(auto, using(crate::proofs::StateValueLaws::state_value_laws, spl_tree::proofs::ExprWeights::weight_laws))]
pub(crate) fn is_state_value(dollars: &[Dollar], expr: &Expr) -> bool
    ensures { result ≡ is_state_value dollars.now expr.now }
{
    match expr.what.get() {
        ExprKind::Number(_) | ExprKind::Text(_) | ExprKind::Bool(_) => true,
        ExprKind::Dollar(name) => is_plain_parameter(dollars, name.as_slice()),
        ExprKind::Group(inner) => is_state_value(dollars, inner),
        ExprKind::List(elements) => are_state_values(dollars, elements.as_slice()),
        ExprKind::Map(entries) => are_state_entries(dollars, entries.as_slice()),
        ExprKind::Tuple(fields) => are_state_fields(dollars, fields.as_slice()),
        ExprKind::Unary(prefixes, operand) => {
            are_minus_prefixes(prefixes.as_slice()) && is_state_value(dollars, operand)
        }
        ExprKind::Name(_)
        | ExprKind::Call(_, _)
        | ExprKind::Select(_, _)
        | ExprKind::Binary(_, _, _)
        | ExprKind::Conditional(_, _, _) => false,
    }
}

#[cycle(state_values)]
fn are_state_values(dollars: &[Dollar], exprs: &[Expr]) -> bool
    ensures { result ≡ list_all (is_state_value dollars.now) exprs.now }
{
    for expr in exprs {
        if !is_state_value(dollars, expr) {
            return false;
        }
    }
    true
}

#[cycle(state_values)]
fn are_state_entries(dollars: &[Dollar], entries: &[(Expr, Expr)]) -> bool
    ensures { result ≡ list_all (λ e. is_state_value dollars.now e.0 && is_state_value dollars.now e.1) entries.now }
{
    for (key, value) in entries {
        if !is_state_value(dollars, key) || !is_state_value(dollars, value) {
            return false;
        }
    }
    true
}

#[cycle(state_values)]
fn are_state_fields(dollars: &[Dollar], fields: &[Field<Expr>]) -> bool
    ensures { result ≡ list_all (λ f. is_state_value dollars.now f.value) fields.now }
{
    for field in fields {
        if !is_state_value(dollars, &field.value) {
            return false;
        }
    }
    true
}
