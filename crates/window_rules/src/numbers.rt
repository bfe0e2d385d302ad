//! The number literals that expressions give.
ghost use Rattle.std.specs.Prelude.{◌≡◌, None, Ok};
ghost use Rattle.spl_tree.specs.declared.expression.ExprKind.TheViews.{out-ExprKind};
ghost use Rattle.language_model.specs.Literals.{number_literal};
ghost use Rattle.language_model.specs.parts.Literals.{number_of};
ghost use Rattle.language_model.specs.Typing.{after, typing};
ghost use Rattle.language_model.specs.Finds.{Finds};
ghost use Rattle.literal_sites.specs.Sites.{numbers_at};

use language_model::{Scope, TypeAnswer};
use literal_sites::ExpressionSite;
use spl_tree::{Expr, ExprKind, Number};
use std::alloc::Global;
use type_rules::type_of;

/// An expression has to have a type by itself.
fn has_type(alloc: Global, scope: &Scope, expr: &Expr) -> Result<(), TypeAnswer>
    ensures { Finds (after (typing scope.now expr.now None) (λ x. Ok tt)) result }
{
    type_of(alloc, scope, expr, None)?;
    Ok(())
}

/// The number literal that an expression gives: it is one, or a `$` parameter whose value
/// is one. Either has a type, so a literal has to be in the range of its own.
pub(crate) fn number_literal(
    alloc: Global,
    site: &ExpressionSite,
    expr: &Expr,
) -> Result<Option<Number>, TypeAnswer>
    ensures { Finds (numbers_at site.now expr.now) result }
{
    match expr.what.get() {
        ExprKind::Number(number) => {
            has_type(alloc, site.scope, expr)?;
            Ok(Some(*number))
        }
        ExprKind::Dollar(_) => {
            has_type(alloc, site.scope, expr)?;
            match site.follow.target(expr) {
                Some(literal) => Ok(number_of(literal)),
                None => Ok(None),
            }
        }
        _ => Ok(None),
    }
}

fn number_of(expr: &Expr) -> Option<Number>
    ensures { result ≡ number_of expr.now }
{
    match expr.what.get() {
        ExprKind::Number(number) => Some(*number),
        _ => None,
    }
}
