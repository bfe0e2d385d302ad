//! Declarations in a row.
ghost use Rattle.std.specs.Prelude.{[]};
ghost use Rattle.statement_parser.specs.Gives.{Gives};
ghost use Rattle.statement_parser.specs.Lines as lines;

use expr_parser::{Taken, symbol_first};
use spl_tree::{Declaration, Symbol, Token};
use spl_value::Items;
use statement_parser::{declaration, push_taken};
use std::alloc::Global;

/// Declarations up to the closing brace.
pub(crate) fn declarations<'t>(alloc: Global, ts: &'t [Token]) -> Taken<'t, Items<Declaration>>
    ensures { Gives (lines.Declarations []) ts.now result }
{
    let mut all = Items::new(alloc);
    let mut at = ts;
    'declarations: loop {
        if let Some((_, behind)) = symbol_first(at, Symbol::RightBrace) {
            return Ok((all, behind));
        }
        let behind = push_taken(&mut all, declaration(alloc, at))?;
        at = behind;
    }
}
