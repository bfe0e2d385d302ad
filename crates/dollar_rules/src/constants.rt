//! Which expressions may be the value of a `$` parameter.
ghost use Rattle.std.specs.Prelude.{◌≡◌, ◌&&◌};
ghost use Rattle.std.specs.List.{list_all};
ghost use Rattle.language_model.specs.parts.Parameters.{is_constant};

use spl_tree::{Expr, ExprKind, Field};

/// Whether no name, call, member or element stands in an expression.
#[cycle(constants)]
#[tactic(auto, using(crate::proofs::ConstantLaws::constant_laws, spl_tree::proofs::ExprWeights::weight_laws))]
pub(crate) fn is_constant(expr: &Expr) -> bool
    ensures { result ≡ is_constant expr.now }
{
    match expr.what.get() {
        ExprKind::Name(_) | ExprKind::Call(_, _) | ExprKind::Select(_, _) => false,
        ExprKind::Dollar(_) | ExprKind::Number(_) | ExprKind::Text(_) | ExprKind::Bool(_) => true,
        ExprKind::Group(inner) | ExprKind::Unary(_, inner) => is_constant(inner),
        ExprKind::List(elements) => are_constant(elements.as_slice()),
        ExprKind::Map(entries) => are_constant_entries(entries.as_slice()),
        ExprKind::Tuple(fields) => are_constant_fields(fields.as_slice()),
        ExprKind::Binary(_, left, right) => is_constant(left) && is_constant(right),
        ExprKind::Conditional(condition, first, second) => {
            is_constant(condition) && is_constant(first) && is_constant(second)
        }
    }
}

#[cycle(constants)]
fn are_constant(exprs: &[Expr]) -> bool
    ensures { result ≡ list_all is_constant exprs.now }
{
    for expr in exprs {
        if !is_constant(expr) {
            return false;
        }
    }
    true
}

#[cycle(constants)]
fn are_constant_entries(entries: &[(Expr, Expr)]) -> bool
    ensures { result ≡ list_all (λ e. is_constant e.0 && is_constant e.1) entries.now }
{
    for (key, value) in entries {
        if !is_constant(key) || !is_constant(value) {
            return false;
        }
    }
    true
}

#[cycle(constants)]
fn are_constant_fields(fields: &[Field<Expr>]) -> bool
    ensures { result ≡ list_all (λ f. is_constant f.value) fields.now }
{
    for field in fields {
        if !is_constant(&field.value) {
            return false;
        }
    }
    true
}
