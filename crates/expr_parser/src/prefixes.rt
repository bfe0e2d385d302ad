//! Prefix operators and casts in front of an operand.
ghost use Rattle.expr_parser.specs.steps.Parts.{Fronts};

use crate::first::{cast_first, pass, prefix_first, symbol_first};
use crate::stop::Stop;
use spl_tree::{Prefixes, Symbol, Token};
use spl_value::Items;
use std::alloc::Global;

/// Prefix operators and casts, and the tokens after them. Where an opening parenthesis that begins no
/// cast follows, it is taken too, and its place stands between.
pub(crate) fn prefixes<'t>(
    alloc: Global,
    ts: &'t [Token],
) -> Result<(Prefixes, Option<u32>, &'t [Token]), Stop<'t>>
    ensures { Fronts ts.now result }
{
    let mut all = Items::new(alloc);
    let mut at = ts;
    'prefixes: loop {
        if let Some((prefix, behind)) = prefix_first(at) {
            all.push(prefix)?;
            at = behind;
            continue;
        }
        let Some((open, behind)) = symbol_first(at, Symbol::LeftParen) else {
            return Ok((all, None, at));
        };
        let Some((cast, behind)) = cast_first(behind, open.start) else {
            return Ok((all, Some(open.start), behind));
        };
        at = pass(behind, Symbol::RightParen)?;
        all.push(cast)?;
    }
}
