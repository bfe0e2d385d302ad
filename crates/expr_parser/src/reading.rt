//! The reader of expressions: a call for each line of the grammar. `depth` is how deep expressions may
//! still nest in one another.
ghost use Rattle.std.specs.Prelude.{◌≡◌, ◌≢◌, ◌≤◌, ◌<◌, ℕ, List, [], MatchOption};
ghost use Rattle.spl_tree.specs.Trees.{placed};
ghost use Rattle.spl_tree.specs.declared.expression.ExprKind.TheVariants as X;
ghost use Rattle.expr_parser.specs.Gives.{Gives};
ghost use Rattle.expr_parser.specs.steps.Parts.{Comes, StepsOn};
ghost use Rattle.expr_parser.specs.Lines.{Whole, Rest, Climb, Chain, Prefixed, Primary, Group, Named, Elements, Brace, Entries, Fields, Steps, operand_rule, list_rule, choice_rule};
ghost use Rattle.expr_parser.specs.Lines as lines;

use crate::first::{
    literal, literal_first, name_first, operator_first, pass, pass_name, symbol_first,
};
use crate::making;
use crate::prefixes::prefixes;
use crate::stop::{Read, Stop};
use spl_tree::{
    Entries, Expr, ExprKind, Exprs, Field, Fields, Placed, Prefixes, Step, Symbol, Token,
};
use spl_value::{Items, Name};
use std::alloc::Global;

/// An expression inside another one.
#[cycle(reader)]
fn nested<'t>(alloc: Global, depth: u32, ts: &'t [Token]) -> Read<'t, Expr>
    ensures { Gives Whole ts.now result }
{
    if depth == 0 {
        return Err(Stop::Memory);
    }
    expr(alloc, depth - 1, ts)
}

/// An expression.
#[cycle(reader)]
pub(crate) fn expr<'t>(alloc: Global, depth: u32, ts: &'t [Token]) -> Read<'t, Expr>
    ensures { Gives Whole ts.now result }
{
    let (first, height, behind) = operand(alloc, depth, ts)?;
    rest(alloc, depth, first, height, behind)
}

/// What follows the first operand of an expression.
#[cycle(reader)]
fn rest<'t>(
    alloc: Global,
    depth: u32,
    operand: Expr,
    height: u32,
    ts: &'t [Token],
) -> Read<'t, Expr>
    ensures { Gives (Rest operand) ts.now result }
{
    let (test, tall, behind) = climb(alloc, depth, 9, operand, height, ts)?;
    match symbol_first(behind, Symbol::Question) {
        Some((_, behind)) => choice(alloc, depth, test, tall, behind),
        None => Ok((test, tall, behind)),
    }
}

/// The two expressions of a conditional, after its `?`.
#[cycle(reader)]
fn choice<'t>(alloc: Global, depth: u32, test: Expr, height: u32, ts: &'t [Token]) -> Read<'t, Expr>
    ensures { Comes (choice_rule test) ts.now result }
{
    let (first, tall, behind) = nested(alloc, depth, ts)?;
    let behind = pass(behind, Symbol::Colon)?;
    let height = height.max(tall);
    let (second, tall, behind) = nested(alloc, depth, behind)?;
    making::conditional(alloc, test, first, second, height.max(tall), behind)
}

/// Operators up to a level, after the first operand.
#[cycle(reader)]
fn climb<'t>(
    alloc: Global,
    depth: u32,
    level: u32,
    operand: Expr,
    height: u32,
    ts: &'t [Token],
) -> Read<'t, Expr>
    requires { level ≤ 9 }
    ensures { Gives (Climb level operand) ts.now result }
{
    if level == 0 {
        return Ok((operand, height, ts));
    }
    let (left, height, behind) = climb(alloc, depth, level - 1, operand, height, ts)?;
    chain(alloc, depth, level - 1, left, height, behind)
}

/// Operators of the level above `below`, after their left side.
#[cycle(reader)]
fn chain<'t>(
    alloc: Global,
    depth: u32,
    below: u32,
    left: Expr,
    height: u32,
    ts: &'t [Token],
) -> Read<'t, Expr>
    requires { below < 9 }
    ensures { Gives (Chain below left) ts.now result }
{
    let mut left = left;
    let mut height = height;
    let mut at = ts;
    'operators: loop {
        let Some((operator, behind)) = operator_first(at, below + 1) else {
            return Ok((left, height, at));
        };
        let (first, tall, behind) = operand(alloc, depth, behind)?;
        let (right, tall, behind) = climb(alloc, depth, below, first, tall, behind)?;
        let tall = height.max(tall);
        let (whole, tall, behind) = making::binary(alloc, operator, left, right, tall, behind)?;
        left = whole;
        height = tall;
        at = behind;
    }
}

/// An operand, with the prefix operators and casts in front of it.
#[cycle(reader)]
fn operand<'t>(alloc: Global, depth: u32, ts: &'t [Token]) -> Read<'t, Expr>
    ensures { Gives (Prefixed []) ts.now result }
{
    let (front, open, behind) = prefixes(alloc, ts)?;
    match open {
        Some(at) => {
            let (inner, height, behind) = group(alloc, depth, at, behind)?;
            prefixed(alloc, depth, front, inner, height, behind)
        }
        None => {
            let (first, height, behind) = primary(alloc, depth, behind)?;
            prefixed(alloc, depth, front, first, height, behind)
        }
    }
}

/// What is taken of a primary expression, with prefix operators and casts in front of all.
#[cycle(reader)]
fn prefixed<'t>(
    alloc: Global,
    depth: u32,
    front: Prefixes,
    primary: Expr,
    height: u32,
    ts: &'t [Token],
) -> Read<'t, Expr>
    ensures { Comes (operand_rule front primary) ts.now result }
{
    let (operand, height, behind) = steps(alloc, depth, primary, height, ts)?;
    making::unary(alloc, front, operand, height, behind)
}

/// A primary expression, but for one in parentheses.
#[cycle(reader)]
fn primary<'t>(alloc: Global, depth: u32, ts: &'t [Token]) -> Read<'t, Expr>
    ensures { Gives Primary ts.now result }
{
    if let Some((token, behind)) = literal_first(ts) {
        return Ok((literal(alloc, token)?, 0, behind));
    }
    if let Some((token, name, behind)) = name_first(ts) {
        let name = Items::from_slice(alloc, name.as_slice())?;
        return named(alloc, depth, token.start, name, behind);
    }
    if let Some((open, behind)) = symbol_first(ts, Symbol::LeftBracket) {
        return list(alloc, depth, open.start, behind);
    }
    match symbol_first(ts, Symbol::LeftBrace) {
        Some((open, behind)) => brace(alloc, depth, open.start, behind),
        None => Err(Stop::At(ts)),
    }
}

/// An expression in parentheses, after the opening one.
#[cycle(reader)]
fn group<'t>(alloc: Global, depth: u32, at: u32, ts: &'t [Token]) -> Read<'t, Expr>
    ensures { Gives (Group at) ts.now result }
{
    let (inner, height, behind) = nested(alloc, depth, ts)?;
    let what = ExprKind::Group(inner);
    making::closed(alloc, at, what, Symbol::RightParen, height, behind)
}

/// A call of the function of that name, or the name alone.
#[cycle(reader)]
fn named<'t>(alloc: Global, depth: u32, at: u32, name: Name, ts: &'t [Token]) -> Read<'t, Expr>
    ensures { Gives (Named at name) ts.now result }
{
    match symbol_first(ts, Symbol::LeftParen) {
        Some((_, behind)) => {
            let (arguments, height, behind) = elements(alloc, depth, Symbol::RightParen, behind)?;
            making::node(alloc, at, ExprKind::Call(name, arguments), height, behind)
        }
        None => {
            let expr = Placed::boxed(alloc, at, ExprKind::Name(name))?;
            Ok((expr, 0, ts))
        }
    }
}

/// A list, after its opening bracket.
#[cycle(reader)]
fn list<'t>(alloc: Global, depth: u32, at: u32, ts: &'t [Token]) -> Read<'t, Expr>
    ensures { Comes (list_rule at) ts.now result }
{
    let (items, height, behind) = elements(alloc, depth, Symbol::RightBracket, ts)?;
    making::node(alloc, at, ExprKind::List(items), height, behind)
}

/// Expressions with commas between them, or none, and the symbol that closes them.
#[cycle(reader)]
pub(crate) fn elements<'t>(
    alloc: Global,
    depth: u32,
    close: Symbol,
    ts: &'t [Token],
) -> Read<'t, Exprs>
    ensures { Gives (Elements close) ts.now result }
{
    match symbol_first(ts, close) {
        Some((_, behind)) => Ok((Items::new(alloc), 0, behind)),
        None => items(alloc, depth, close, ts),
    }
}

/// One expression or more, with commas between them, and the symbol that closes them.
#[cycle(reader)]
pub(crate) fn items<'t>(
    alloc: Global,
    depth: u32,
    close: Symbol,
    ts: &'t [Token],
) -> Read<'t, Exprs>
    ensures { Gives (lines.Items close []) ts.now result }
{
    let mut all = Items::new(alloc);
    let mut height = 0;
    let mut at = ts;
    'items: loop {
        let (item, tall, behind) = nested(alloc, depth, at)?;
        all.push(item)?;
        height = height.max(tall);
        let Some((_, behind)) = symbol_first(behind, Symbol::Comma) else {
            let behind = pass(behind, close)?;
            return Ok((all, height, behind));
        };
        at = behind;
    }
}

/// The name that an expression is, if it is one and nothing else.
fn name_alone(expr: Expr) -> Option<Placed<Name>>
    ensures { MatchOption result ((n : List ℕ) → expr.what ≢ X.Name n)
        (λ name. expr ≡ placed name.at (X.Name name.what)) }
{
    let (at, what) = expr.into_parts();
    let what = what.into_inner().into_name()?;
    Some(Placed { at, what })
}

/// A map or a tuple, after the opening brace.
#[cycle(reader)]
fn brace<'t>(alloc: Global, depth: u32, at: u32, ts: &'t [Token]) -> Read<'t, Expr>
    ensures { Gives (Brace at) ts.now result }
{
    if let Some((_, behind)) = symbol_first(ts, Symbol::RightBrace) {
        let expr = Placed::boxed(alloc, at, ExprKind::Map(Items::new(alloc)))?;
        return Ok((expr, 0, behind));
    }
    let (first, height, behind) = nested(alloc, depth, ts)?;
    if let Some((_, behind)) = symbol_first(behind, Symbol::Colon) {
        return entries(alloc, depth, at, first, height, behind);
    }
    match name_alone(first) {
        Some(name) => {
            let behind = pass(behind, Symbol::Assign)?;
            fields(alloc, depth, at, name, behind)
        }
        None => Err(Stop::At(behind)),
    }
}

/// A map, after its first key and the colon.
#[cycle(reader)]
fn entries<'t>(
    alloc: Global,
    depth: u32,
    at: u32,
    key: Expr,
    height: u32,
    ts: &'t [Token],
) -> Read<'t, Expr>
    ensures { Gives (Entries at [] key) ts.now result }
{
    let mut all: Entries = Items::new(alloc);
    let mut key = key;
    let mut height = height;
    let mut left = ts;
    'entries: loop {
        let (value, tall, behind) = nested(alloc, depth, left)?;
        all.push((key, value))?;
        height = height.max(tall);
        let Some((_, behind)) = symbol_first(behind, Symbol::Comma) else {
            let what = ExprKind::Map(all);
            return making::closed(alloc, at, what, Symbol::RightBrace, height, behind);
        };
        let (next, tall, behind) = nested(alloc, depth, behind)?;
        left = pass(behind, Symbol::Colon)?;
        key = next;
        height = height.max(tall);
    }
}

/// A tuple, after the name of its first field and `=`.
#[cycle(reader)]
fn fields<'t>(
    alloc: Global,
    depth: u32,
    at: u32,
    name: Placed<Name>,
    ts: &'t [Token],
) -> Read<'t, Expr>
    ensures { Gives (Fields at [] name) ts.now result }
{
    let mut all: Fields = Items::new(alloc);
    let mut name = name;
    let mut height = 0;
    let mut left = ts;
    'fields: loop {
        let (value, tall, behind) = nested(alloc, depth, left)?;
        all.push(Field { name, value })?;
        height = height.max(tall);
        let Some((_, behind)) = symbol_first(behind, Symbol::Comma) else {
            let what = ExprKind::Tuple(all);
            return making::closed(alloc, at, what, Symbol::RightBrace, height, behind);
        };
        let (next, behind) = pass_name(alloc, behind)?;
        left = pass(behind, Symbol::Assign)?;
        name = next;
    }
}

/// What is taken of a primary expression: members and indices in a row.
#[cycle(reader)]
pub(crate) fn steps<'t>(
    alloc: Global,
    depth: u32,
    primary: Expr,
    height: u32,
    ts: &'t [Token],
) -> Read<'t, Expr>
    ensures { Gives (Steps primary []) ts.now result }
{
    let mut all = Items::new(alloc);
    let mut height = height;
    let mut at = ts;
    'steps: loop {
        let (found, tall, behind) = step(alloc, depth, at)?;
        let Some(one) = found else {
            return making::selected(alloc, primary, all, height, behind);
        };
        all.push(one)?;
        height = height.max(tall);
        at = behind;
    }
}

/// One member or index, or none.
#[cycle(reader)]
fn step<'t>(alloc: Global, depth: u32, ts: &'t [Token]) -> Read<'t, Option<Step<Expr>>>
    ensures { StepsOn ts.now result }
{
    if let Some((_, behind)) = symbol_first(ts, Symbol::Dot) {
        let (name, behind) = pass_name(alloc, behind)?;
        return Ok((Some(Step::Member(name)), 0, behind));
    }
    if let Some((_, behind)) = symbol_first(ts, Symbol::LeftBracket) {
        let (index, height, behind) = nested(alloc, depth, behind)?;
        let behind = pass(behind, Symbol::RightBracket)?;
        return Ok((Some(Step::Index(index)), height, behind));
    }
    Ok((None, 0, ts))
}
