//! What a part of a window measures.
ghost use Rattle.std.specs.Prelude.{◌≡◌, Some, None, Ok, pos, ◌&&◌};
ghost use Rattle.spl_value.specs.declared.types.SplType.TheViews.{out-SplType};
ghost use Rattle.spl_value.specs.declared.types.SplType.TheVariants as S;
ghost use Rattle.spl_value.specs.Values.{kind_holds};
ghost use Rattle.spl_tree.specs.declared.expression.ExprKind.TheViews.{out-ExprKind};
ghost use Rattle.language_model.specs.Policies.{delta_of, has_name, level_attribute, measured, only_count};
ghost use Rattle.language_model.specs.parts.Policies.{as_count, as_limit, count_of, as_integer};
ghost use Rattle.language_model.specs.Scopes.{attribute_of};
ghost use Rattle.language_model.specs.Typing.{after, same_types};
ghost use Rattle.language_model.specs.Finds.{Finds};
ghost use Rattle.literal_sites.specs.Sites.{numbers_at};
ghost use Rattle.window_rules.specs.steps.Windows.{counted, differing, with_kind, with_limit};

use super::WrittenWindow;
use super::rules::bad_window;
use crate::numbers::number_literal;
use language_model::{TypeAnswer, attribute_named, narrow, unknown};
use literal_sites::ExpressionSite;
use spl_tree::{Expr, ExprKind, Number, WindowPart};
use spl_value::{Attribute, IntKind, SplType, is_of_kind, same_type};
use std::alloc::Global;

/// The most tuples that a window counts.
const MOST_TUPLES: u64 = 1_000_000;

/// What a part of a window measures.
#[derive(Clone, Copy)]
pub(super) enum Measure {
    /// A number of tuples.
    Count(u64),
    /// How far values of an attribute may lie apart.
    Delta { attribute: u32, limit: i128 },
}

/// What `count(..)` or `delta(..)` measures; none of another part. A count is at least `least` tuples.
pub(super) fn measure_of(
    alloc: Global,
    window: &WrittenWindow,
    least: u64,
    part: &WindowPart,
) -> Result<Option<Measure>, TypeAnswer>
    ensures { Finds (measured (numbers_at window.now.site.now) least window.now.port.now.schema (λ n. Some (counted n)) (λ d. Some (differing d)) (Ok None) part.now) result }
{
    if is_named(part, b"count") {
        let count = only_count(alloc, window.site, least, part)?;
        Ok(Some(Measure::Count(count)))
    } else if is_named(part, b"delta") {
        let (attribute, limit) = delta(alloc, window.site, window.port.schema.as_slice(), part)?;
        Ok(Some(Measure::Delta { attribute, limit }))
    } else {
        Ok(None)
    }
}

pub(super) fn is_named(part: &WindowPart, name: &[u8]) -> bool
    ensures { result ≡ has_name name.now part.now }
{
    part.name.what.as_slice() == name
}

/// The number of tuples between the parentheses of a part.
pub(super) fn only_count(
    alloc: Global,
    site: &ExpressionSite,
    least: u64,
    part: &WindowPart,
) -> Result<u64, TypeAnswer>
    ensures { Finds (only_count (numbers_at site.now) least part.now part.now.arguments) result }
{
    let Some(arguments) = &part.arguments else {
        return Err(bad_window(part.name.at));
    };
    match arguments.as_slice() {
        [count] => count_of(alloc, site, least, count),
        _ => Err(bad_window(part.name.at)),
    }
}

fn count_of(
    alloc: Global,
    site: &ExpressionSite,
    least: u64,
    expr: &Expr,
) -> Result<u64, TypeAnswer>
    ensures { Finds (count_of (numbers_at site.now) least expr.now) result }
{
    let number = number_literal(alloc, site, expr)?;
    as_count(expr.at, least, number)
}

fn as_count(at: u32, least: u64, number: Option<Number>) -> Result<u64, TypeAnswer>
    ensures { Finds (as_count at least number) result }
{
    match number {
        Some(number) if least <= number.value && number.value <= MOST_TUPLES => Ok(number.value),
        _ => Err(bad_window(at)),
    }
}

/// The place of the attribute between the parentheses of a part, and the limit after it.
fn delta(
    alloc: Global,
    site: &ExpressionSite,
    schema: &[Attribute],
    part: &WindowPart,
) -> Result<(u32, i128), TypeAnswer>
    ensures { Finds (with_limit (delta_of (numbers_at site.now) schema.now part.now part.now.arguments)) result }
{
    let Some(arguments) = &part.arguments else {
        return Err(bad_window(part.name.at));
    };
    match arguments.as_slice() {
        [attribute, limit] => {
            let (place, kind) = integer_attribute(alloc, schema, attribute)?;
            let number = number_literal(alloc, site, limit)?;
            Ok((place, as_limit(limit.at, kind, number)?))
        }
        _ => Err(bad_window(part.name.at)),
    }
}

/// The place of an attribute of an integer type, by its name, and that type.
fn integer_attribute(
    alloc: Global,
    schema: &[Attribute],
    expr: &Expr,
) -> Result<(u32, IntKind), TypeAnswer>
    ensures { Finds (with_kind (level_attribute schema.now expr.now.at (out-ExprKind expr.now.what))) result }
{
    match expr.what.get() {
        ExprKind::Name(name) => integer_named(alloc, schema, expr.at, name.as_slice()),
        _ => Err(bad_window(expr.at)),
    }
}

fn integer_named(
    alloc: Global,
    schema: &[Attribute],
    at: u32,
    name: &[u8],
) -> Result<(u32, IntKind), TypeAnswer>
    ensures { Finds (with_kind (as_integer at name.now (attribute_of schema.now name.now))) result }
{
    let Some((place, found)) = attribute_named(schema, name) else {
        return Err(unknown(alloc, at, name));
    };
    match &found.kind {
        SplType::Int(kind) => Ok((narrow(place)?, *kind)),
        _ => Err(bad_window(at)),
    }
}

/// A limit is a number literal of the attribute's type, and in its range.
fn as_limit(at: u32, kind: IntKind, number: Option<Number>) -> Result<i128, TypeAnswer>
    ensures { Finds (after (as_limit at kind number) (λ limit. Ok (pos limit))) result }
{
    match number {
        Some(number) if is_of(number, kind) && is_in_range(number, kind) => {
            Ok(i128::from(number.value))
        }
        _ => Err(bad_window(at)),
    }
}

fn is_of(number: Number, kind: IntKind) -> bool
    ensures { result ≡ same_types (S.Int number.kind) (S.Int kind) }
{
    same_type(&SplType::Int(number.kind), &SplType::Int(kind))
}

fn is_in_range(number: Number, kind: IntKind) -> bool
    ensures { result ≡ kind_holds kind (pos number.value) }
{
    is_of_kind(kind, i128::from(number.value))
}
