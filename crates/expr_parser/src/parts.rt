//! Expressions within other parts of a program.
ghost use Rattle.std.specs.Prelude.{◌≡◌, false, []};
ghost use Rattle.expr_parser.specs.Gives.{Answers, Begun, Spelled};
ghost use Rattle.expr_parser.specs.Lines as lines;
ghost use Rattle.expr_parser.specs.Parts.{Closed, SpellsSteps, goes_on};
ghost use Rattle.spl_tree.specs.spellings.Grammar.{Elements, Items, Spells};

use crate::reading::{elements, expr, items, steps};
use crate::stop::Stop;
use spl_tree::{Expr, Exprs, MOST_NESTED, Symbol, Token};
use std::alloc::Global;

/// A value that is read, and the tokens after it.
pub type Taken<'t, T> = Result<(T, &'t [Token]), Stop<'t>>;

/// The expression with which the tokens begin: as many tokens are taken as can begin an expression.
/// Where they aren't one themselves, the token after them is refused. No token is weighed.
pub fn read_expression<'t>(alloc: Global, ts: &'t [Token]) -> Taken<'t, Expr>
    ensures rule { Answers lines.Whole ts.now result }
    ensures phrase { Begun Spells ts.now result }
{
    match expr(alloc, MOST_NESTED, ts) {
        Ok((expr, _, rest)) => Ok((expr, rest)),
        Err(stop) => Err(stop),
    }
}

/// Expressions with commas between them, or none, and the symbol that closes them, as the arguments of
/// a call have it. As many tokens are taken as can begin that, where an expression neither begins nor
/// goes on with the symbol.
pub fn read_elements<'t>(alloc: Global, close: Symbol, ts: &'t [Token]) -> Taken<'t, Exprs>
    ensures rule { Answers (lines.Elements close) ts.now result }
    ensures spelled { Spelled (Closed Elements close) ts.now result }
    ensures phrase { goes_on close ≡ false → Begun (Closed Elements close) ts.now result }
{
    match elements(alloc, MOST_NESTED, close, ts) {
        Ok((all, _, rest)) => Ok((all, rest)),
        Err(stop) => Err(stop),
    }
}

/// One expression or more, with commas between them, and the symbol that closes them, read like that.
pub fn read_items<'t>(alloc: Global, close: Symbol, ts: &'t [Token]) -> Taken<'t, Exprs>
    ensures rule { Answers (lines.Items close []) ts.now result }
    ensures spelled { Spelled (Closed Items close) ts.now result }
    ensures phrase { goes_on close ≡ false → Begun (Closed Items close) ts.now result }
{
    match items(alloc, MOST_NESTED, close, ts) {
        Ok((all, _, rest)) => Ok((all, rest)),
        Err(stop) => Err(stop),
    }
}

/// The members and elements that are taken of what stands before these tokens, or that alone.
pub fn read_steps<'t>(alloc: Global, base: Expr, ts: &'t [Token]) -> Taken<'t, Expr>
    ensures rule { Answers (lines.Steps base []) ts.now result }
    ensures phrase { Begun (SpellsSteps base) ts.now result }
{
    match steps(alloc, MOST_NESTED, base, 0, ts) {
        Ok((place, _, rest)) => Ok((place, rest)),
        Err(stop) => Err(stop),
    }
}
