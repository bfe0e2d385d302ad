//! Values in a row, and symbols after a value.
ghost use Rattle.expr_parser.specs.Rules.{done};
ghost use Rattle.statement_parser.specs.Gives.{Comes, Pushed};
ghost use Rattle.statement_parser.specs.Lines.{expect, expression_before, name_before};
ghost use Rattle.statement_parser.specs.steps.Parts.{expression_between};

use expr_parser::{Stop, Taken, pass, pass_name, read_expression};
use spl_tree::{Expr, Placed, Symbol, Token};
use spl_value::{Items, Name};
use std::alloc::Global;

/// Pushes the value that is read, and returns the tokens after it.
pub fn push_taken<'t, T: Drop>(
    all: &mut Items<T>,
    taken: Taken<'t, T>,
) -> Result<&'t [Token], Stop<'t>>
    ensures { Pushed all.old taken.entry result all.new }
{
    let (one, behind) = taken?;
    all.push(one)?;
    Ok(behind)
}

/// A value that is read already, and the symbol that has to come after it.
pub fn closed<'t, T: Drop>(value: T, close: Symbol, ts: &'t [Token]) -> Taken<'t, T>
    ensures { Comes (expect close (done value)) ts.now result }
{
    let behind = pass(ts, close)?;
    Ok((value, behind))
}

/// A name, and the symbol that has to come after it.
pub fn name_before<'t>(alloc: Global, symbol: Symbol, ts: &'t [Token]) -> Taken<'t, Placed<Name>>
    ensures { Comes (name_before symbol) ts.now result }
{
    let (name, behind) = pass_name(alloc, ts)?;
    closed(name, symbol, behind)
}

/// An expression, and the symbol that has to come after it.
pub fn expression_before<'t>(alloc: Global, symbol: Symbol, ts: &'t [Token]) -> Taken<'t, Expr>
    ensures { Comes (expression_before symbol) ts.now result }
{
    let (value, behind) = read_expression(alloc, ts)?;
    closed(value, symbol, behind)
}

/// An expression between two symbols.
pub(crate) fn expression_between<'t>(
    alloc: Global,
    opening: Symbol,
    close: Symbol,
    ts: &'t [Token],
) -> Taken<'t, Expr>
    ensures { Comes (expression_between opening close) ts.now result }
{
    let behind = pass(ts, opening)?;
    expression_before(alloc, close, behind)
}
