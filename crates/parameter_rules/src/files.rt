//! The names of files that expressions give.
ghost use Rattle.std.specs.Prelude.{◌≡◌};
ghost use Rattle.std.specs.Option.{option_copied};
ghost use Rattle.std.specs.Str.{is_utf8};
ghost use Rattle.spl_tree.specs.declared.expression.ExprKind.TheViews.{out-ExprKind};
ghost use Rattle.language_model.specs.Literals.{file_or_mismatch, file_typing};
ghost use Rattle.language_model.specs.parts.Literals.{is_file_name, text_at};
ghost use Rattle.language_model.specs.Finds.{Finds};
ghost use Rattle.literal_sites.specs.Sites.{followed_at};

use language_model::{TypeAnswer, mismatch};
use literal_sites::ExpressionSite;
use spl_tree::{Expr, ExprKind};
use spl_value::{Bytes, Items, SplType};
use std::alloc::Global;
use type_rules::type_of;

/// The name of a file that an expression gives: it is a text literal, or a `$` parameter of that
/// type whose value is one.
pub(crate) fn file_name(
    alloc: Global,
    site: &ExpressionSite,
    expr: &Expr,
) -> Result<Bytes, TypeAnswer>
    ensures { Finds (file_typing site.now.scope.now (followed_at site.now) expr.now) result }
{
    match expr.what.get() {
        ExprKind::Text(bytes) => file_or_mismatch(alloc, expr.at, bytes.as_slice()),
        ExprKind::Dollar(_) => {
            type_of(alloc, site.scope, expr, Some(&SplType::Text))?;
            text_at(alloc, expr.at, site.follow.target(expr))
        }
        _ => Err(mismatch(expr.at)),
    }
}

/// The name of a file that is a text literal.
fn text_at(alloc: Global, at: u32, literal: Option<&Expr>) -> Result<Bytes, TypeAnswer>
    ensures { Finds (text_at at (option_copied literal.entry)) result }
{
    let Some(literal) = literal else {
        return Err(mismatch(at));
    };
    match literal.what.get() {
        ExprKind::Text(bytes) => file_or_mismatch(alloc, at, bytes.as_slice()),
        _ => Err(mismatch(at)),
    }
}

fn file_or_mismatch(alloc: Global, at: u32, bytes: &[u8]) -> Result<Bytes, TypeAnswer>
    ensures { Finds (file_or_mismatch at bytes.now) result }
{
    if is_file_name(bytes) {
        Ok(Items::from_slice(alloc, bytes)?)
    } else {
        Err(mismatch(at))
    }
}

/// Whether a file can have that name: it is UTF-8, not empty, and not that of a standard stream.
#[tactic(auto, using(crate::proofs::Texts::empty_as))]
fn is_file_name(bytes: &[u8]) -> bool
    ensures { result ≡ is_file_name bytes.now }
{
    let is_empty = bytes.is_empty();
    is_text(bytes) && !is_empty && bytes != b"-".as_slice()
}

/// Whether bytes are UTF-8.
#[tactic(auto, using(crate::proofs::Texts::utf8_as, crate::proofs::Texts::no_utf8_as))]
fn is_text(bytes: &[u8]) -> bool
    ensures { result ≡ is_utf8 bytes.now }
{
    match str::from_utf8(bytes) {
        Ok(_) => true,
        Err(_) => false,
    }
}
