//! Texts of expressions against their results.
ghost use Rattle.language_texts.specs.Contexts.{Holds};

pub(crate) mod tables;

use language_texts::{Context, TURNS, Unanswered, expr_of};
use spl_tree::{Expr, Marker, Unit};
use std::alloc::Global;
use test_texts::text::Text;
use test_texts::values::add_value;

/// A text, and the number after its last ` @ `, where there is one.
pub(crate) fn with_turns(text: &str) -> (&str, Option<u32>) {
    if let Some((front, turns)) = text.rsplit_once(" @ ")
        && let Ok(turns) = turns.parse::<u32>()
    {
        return (front, Some(turns));
    }
    (text, None)
}

// Adds the value of an expression, and after it the turns that are left, where their number is given.
fn add_value_of(
    alloc: Global,
    context: &Context,
    expr: &Expr,
    turns: Option<u32>,
    out: &mut Text,
) -> Result<(), Unanswered>
    requires { Holds context.now.scope context.now.env context.now.functions }
{
    let mut left = turns.unwrap_or(TURNS);
    let valued = context.value_of(alloc, expr, None, &mut left)?;
    add_value(out, &valued.value);
    if turns.is_some() {
        out.add_place(" | ", left);
    }
    Ok(())
}

/// Adds the value of an expression in a unit where this marker or a tuple came, and the turns that are left,
/// where the text says how many there are.
pub(crate) fn add_valued(
    alloc: Global,
    unit: Result<Unit, Unanswered>,
    came: Option<Marker>,
    text: &str,
    out: &mut Text,
) -> Result<(), Unanswered> {
    let (text, turns) = with_turns(text);
    let unit = unit?;
    let expr = expr_of(alloc, text)?;
    let context = Context::new(alloc, &unit, &unit, came)?;
    add_value_of(alloc, &context, &expr, turns, out)
}
