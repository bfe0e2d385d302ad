//! The nodes of trees, each one higher than the highest of its parts.
ghost use Rattle.spl_tree.specs.Trees.{placed};
ghost use Rattle.expr_parser.specs.steps.Parts.{Comes, Makes};
ghost use Rattle.expr_parser.specs.Lines.{binary, conditional, expect, prefixed, selected};
ghost use Rattle.expr_parser.specs.Rules.{done};

use crate::first::pass;
use crate::stop::{Read, taller};
use spl_tree::{BinaryOperator, Expr, ExprKind, Placed, Prefixes, Steps, Symbol, Token};
use spl_value::Boxed;
use std::alloc::{AllocError, Global};

/// The node over parts of that height.
pub(crate) fn node<'t>(
    alloc: Global,
    at: u32,
    what: ExprKind,
    height: u32,
    ts: &'t [Token],
) -> Read<'t, Expr>
    ensures { Makes (placed at what) ts.now result }
{
    let expr = Placed::boxed(alloc, at, what)?;
    let height = taller(height)?;
    Ok((expr, height, ts))
}

pub(crate) fn conditional<'t>(
    alloc: Global,
    test: Expr,
    first: Expr,
    second: Expr,
    height: u32,
    ts: &'t [Token],
) -> Read<'t, Expr>
    ensures { Makes (conditional test first second) ts.now result }
{
    let at = test.at;
    node(
        alloc,
        at,
        ExprKind::Conditional(test, first, second),
        height,
        ts,
    )
}

pub(crate) fn binary<'t>(
    alloc: Global,
    operator: BinaryOperator,
    left: Expr,
    right: Expr,
    height: u32,
    ts: &'t [Token],
) -> Read<'t, Expr>
    ensures { Makes (binary operator left right) ts.now result }
{
    let at = left.at;
    node(
        alloc,
        at,
        ExprKind::Binary(operator, left, right),
        height,
        ts,
    )
}

/// An operand with prefix operators and casts in front, or the operand alone where there are none.
pub(crate) fn unary<'t>(
    alloc: Global,
    prefixes: Prefixes,
    operand: Expr,
    height: u32,
    ts: &'t [Token],
) -> Read<'t, Expr>
    ensures { Makes (prefixed prefixes operand) ts.now result }
{
    let at = match prefixes.as_slice() {
        [] => return Ok((operand, height, ts)),
        [first, ..] => first.at,
    };
    node(alloc, at, ExprKind::Unary(prefixes, operand), height, ts)
}

/// A primary expression with members and indices taken of it, or alone where there are none.
pub(crate) fn selected<'t>(
    alloc: Global,
    primary: Expr,
    steps: Steps,
    height: u32,
    ts: &'t [Token],
) -> Read<'t, Expr>
    ensures { Makes (selected primary steps) ts.now result }
{
    if steps.as_slice().is_empty() {
        return Ok((primary, height, ts));
    }
    let at = primary.at;
    node(alloc, at, ExprKind::Select(primary, steps), height, ts)
}

/// The symbol that closes a node, and the node.
pub(crate) fn closed<'t>(
    alloc: Global,
    at: u32,
    what: ExprKind,
    close: Symbol,
    height: u32,
    ts: &'t [Token],
) -> Read<'t, Expr>
    ensures { Comes (expect close (done (placed at what))) ts.now result }
{
    match pass(ts, close) {
        Ok(behind) => node(alloc, at, what, height, behind),
        Err(stop) => {
            drop(what);
            Err(stop)
        }
    }
}
