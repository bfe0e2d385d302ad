//! Declarations of variables.
ghost use Rattle.std.specs.Prelude.{true, false};
ghost use Rattle.statement_parser.specs.Gives.{Gives};
ghost use Rattle.statement_parser.specs.Lines as lines;

use crate::first::word_first;
use crate::sequence::{closed, expression_before};
use crate::types::read_type;
use expr_parser::{Taken, pass_name, symbol_first};
use spl_tree::{Declaration, Keyword, Placed, Symbol, Token, TypeExpr};
use spl_value::Name;
use std::alloc::Global;

/// A declaration.
pub fn declaration<'t>(alloc: Global, ts: &'t [Token]) -> Taken<'t, Declaration>
    ensures { Gives lines.Declare ts.now result }
{
    match word_first(ts, Keyword::Mutable) {
        Some((_, behind)) => {
            let (kind, behind) = read_type(alloc, behind)?;
            declared(alloc, true, kind, behind)
        }
        None => {
            let (kind, behind) = read_type(alloc, ts)?;
            declared(alloc, false, kind, behind)
        }
    }
}

/// A declaration, after its type.
pub(crate) fn declared<'t>(
    alloc: Global,
    mutable: bool,
    kind: TypeExpr,
    ts: &'t [Token],
) -> Taken<'t, Declaration>
    ensures { Gives (lines.Declared mutable kind) ts.now result }
{
    let (name, behind) = pass_name(alloc, ts)?;
    valued(alloc, mutable, kind, name, behind)
}

/// A declaration, after its name.
pub(crate) fn valued<'t>(
    alloc: Global,
    mutable: bool,
    kind: TypeExpr,
    name: Placed<Name>,
    ts: &'t [Token],
) -> Taken<'t, Declaration>
    ensures { Gives (lines.Valued mutable kind name) ts.now result }
{
    let Some((_, behind)) = symbol_first(ts, Symbol::Assign) else {
        let declaration = Declaration {
            mutable,
            kind,
            name,
            value: None,
        };
        return closed(declaration, Symbol::Semicolon, ts);
    };
    let (value, behind) = expression_before(alloc, Symbol::Semicolon, behind)?;
    let declaration = Declaration {
        mutable,
        kind,
        name,
        value: Some(value),
    };
    Ok((declaration, behind))
}
