//! Types and shapes. `depth` is how deep types may still nest in one another.
ghost use Rattle.std.specs.Prelude.{[]};
ghost use Rattle.expr_parser.specs.Rules.{done};
ghost use Rattle.spl_tree.specs.Trees.{placed};
ghost use Rattle.statement_parser.specs.Gives.{Comes, Gives};
ghost use Rattle.statement_parser.specs.Lines as lines;
ghost use Rattle.statement_parser.specs.Lines.{type_before, type_between};
ghost use Rattle.statement_parser.specs.steps.Parts.{attribute_rule, named_attribute_rule, named_shape_rule};

use crate::first::{type_first, word_first};
use crate::sequence::{closed, push_taken};
use expr_parser::{Stop, Taken, name_first, pass, pass_name, symbol_first};
use spl_tree::{
    Attribute, Attributes, Keyword, MOST_NESTED, Placed, Shape, ShapeKind, Symbol, Token, TypeExpr,
    TypeKind,
};
use spl_value::Items;
use std::alloc::Global;

/// A type.
pub fn read_type<'t>(alloc: Global, ts: &'t [Token]) -> Taken<'t, TypeExpr>
    ensures { Gives lines.TypeExpression ts.now result }
{
    type_at(alloc, MOST_NESTED, ts)
}

/// A type between two symbols.
pub fn read_type_between<'t>(
    alloc: Global,
    opening: Symbol,
    close: Symbol,
    ts: &'t [Token],
) -> Taken<'t, TypeExpr>
    ensures { Comes (type_between opening close) ts.now result }
{
    type_between(alloc, MOST_NESTED, opening, close, ts)
}

#[cycle(types)]
fn type_at<'t>(alloc: Global, depth: u32, ts: &'t [Token]) -> Taken<'t, TypeExpr>
    ensures { Gives lines.TypeExpression ts.now result }
{
    if let Some((kind, behind)) = type_first(alloc, ts)? {
        return Ok((kind, behind));
    }
    if depth == 0 {
        return Err(Stop::Memory);
    }
    if let Some((word, behind)) = word_first(ts, Keyword::List) {
        return list_type(alloc, depth - 1, word.start, behind);
    }
    if let Some((word, behind)) = word_first(ts, Keyword::Map) {
        return map_type(alloc, depth - 1, word.start, behind);
    }
    match word_first(ts, Keyword::Tuple) {
        Some((word, behind)) => tuple_type(alloc, depth - 1, word.start, behind),
        None => Err(Stop::At(ts)),
    }
}

/// A type between two symbols, within another type.
#[cycle(types)]
fn type_between<'t>(
    alloc: Global,
    depth: u32,
    opening: Symbol,
    close: Symbol,
    ts: &'t [Token],
) -> Taken<'t, TypeExpr>
    ensures { Comes (type_between opening close) ts.now result }
{
    let behind = pass(ts, opening)?;
    type_before(alloc, depth, close, behind)
}

/// A type, and the symbol that has to come after it.
#[cycle(types)]
fn type_before<'t>(
    alloc: Global,
    depth: u32,
    symbol: Symbol,
    ts: &'t [Token],
) -> Taken<'t, TypeExpr>
    ensures { Comes (type_before symbol) ts.now result }
{
    let (kind, behind) = type_at(alloc, depth, ts)?;
    closed(kind, symbol, behind)
}

/// The type of that kind at a place.
fn type_made<'t>(alloc: Global, at: u32, what: TypeKind, ts: &'t [Token]) -> Taken<'t, TypeExpr>
    ensures { Comes (done (placed at what)) ts.now result }
{
    let kind = Placed::boxed(alloc, at, what)?;
    Ok((kind, ts))
}

/// A type of lists, after `list`.
#[cycle(types)]
fn list_type<'t>(alloc: Global, depth: u32, at: u32, ts: &'t [Token]) -> Taken<'t, TypeExpr>
    ensures { Gives (lines.ListType at) ts.now result }
{
    let (element, behind) = type_between(alloc, depth, Symbol::Less, Symbol::Greater, ts)?;
    type_made(alloc, at, TypeKind::List(element), behind)
}

/// A type of maps, after `map`.
#[cycle(types)]
fn map_type<'t>(alloc: Global, depth: u32, at: u32, ts: &'t [Token]) -> Taken<'t, TypeExpr>
    ensures { Gives (lines.MapType at) ts.now result }
{
    let (key, behind) = type_between(alloc, depth, Symbol::Less, Symbol::Comma, ts)?;
    let (value, behind) = type_before(alloc, depth, Symbol::Greater, behind)?;
    type_made(alloc, at, TypeKind::Map(key, value), behind)
}

/// A type of tuples, after `tuple`.
#[cycle(types)]
fn tuple_type<'t>(alloc: Global, depth: u32, at: u32, ts: &'t [Token]) -> Taken<'t, TypeExpr>
    ensures { Gives (lines.TupleType at) ts.now result }
{
    let behind = pass(ts, Symbol::Less)?;
    let (attributes, behind) = attributes(alloc, depth, Symbol::Greater, behind)?;
    type_made(alloc, at, TypeKind::Tuple(attributes), behind)
}

/// One type with a name or more, with commas between them, and the symbol that closes them.
#[cycle(types)]
fn attributes<'t>(
    alloc: Global,
    depth: u32,
    close: Symbol,
    ts: &'t [Token],
) -> Taken<'t, Attributes>
    ensures { Gives (lines.Attributes close []) ts.now result }
{
    let mut first = Items::new(alloc);
    let behind = push_taken(&mut first, attribute(alloc, depth, ts))?;
    more_attributes(alloc, depth, close, first, behind)
}

/// A type with a name.
#[cycle(types)]
fn attribute<'t>(alloc: Global, depth: u32, ts: &'t [Token]) -> Taken<'t, Attribute<TypeExpr>>
    ensures { Comes attribute_rule ts.now result }
{
    let (kind, behind) = type_at(alloc, depth, ts)?;
    named_attribute(alloc, kind, behind)
}

/// The same, after the type.
fn named_attribute<'t>(
    alloc: Global,
    kind: TypeExpr,
    ts: &'t [Token],
) -> Taken<'t, Attribute<TypeExpr>>
    ensures { Comes (named_attribute_rule kind) ts.now result }
{
    let (name, behind) = pass_name(alloc, ts)?;
    Ok((Attribute { kind, name }, behind))
}

/// A type with a name, not within another type.
pub(crate) fn read_attribute<'t>(alloc: Global, ts: &'t [Token]) -> Taken<'t, Attribute<TypeExpr>>
    ensures { Comes attribute_rule ts.now result }
{
    attribute(alloc, MOST_NESTED, ts)
}

/// More of them after the first.
#[cycle(types)]
fn more_attributes<'t>(
    alloc: Global,
    depth: u32,
    close: Symbol,
    first: Attributes,
    ts: &'t [Token],
) -> Taken<'t, Attributes>
    ensures { Gives (lines.MoreAttributes close first) ts.now result }
{
    let mut all = first;
    let mut at = ts;
    'attributes: loop {
        let Some((_, behind)) = symbol_first(at, Symbol::Comma) else {
            return closed(all, close, at);
        };
        let behind = push_taken(&mut all, attribute(alloc, depth, behind))?;
        at = behind;
    }
}

/// The parameters of a function up to the closing parenthesis: types with names, or none.
pub fn function_parameters<'t>(alloc: Global, ts: &'t [Token]) -> Taken<'t, Attributes>
    ensures { Gives lines.FunctionParameters ts.now result }
{
    match symbol_first(ts, Symbol::RightParen) {
        Some((_, behind)) => Ok((Items::new(alloc), behind)),
        None => attributes(alloc, MOST_NESTED, Symbol::RightParen, ts),
    }
}

/// A shape, and the symbol that closes it.
pub fn shape<'t>(alloc: Global, close: Symbol, ts: &'t [Token]) -> Taken<'t, Shape>
    ensures { Gives (lines.Shaped close) ts.now result }
{
    let (kind, behind) = read_type(alloc, ts)?;
    let at = kind.at;
    if name_first(behind).is_none() {
        let what = ShapeKind::Type(kind);
        return closed(Placed { at, what }, close, behind);
    }
    let (name, behind) = pass_name(alloc, behind)?;
    named_shape(alloc, at, close, Attribute { kind, name }, behind)
}

/// A shape at a place, after its first attribute.
fn named_shape<'t>(
    alloc: Global,
    at: u32,
    close: Symbol,
    first: Attribute<TypeExpr>,
    ts: &'t [Token],
) -> Taken<'t, Shape>
    ensures { Comes (named_shape_rule at close first) ts.now result }
{
    let mut all = Items::new(alloc);
    all.push(first)?;
    let (all, behind) = more_attributes(alloc, MOST_NESTED, close, all, ts)?;
    let what = ShapeKind::Attributes(all);
    Ok((Placed { at, what }, behind))
}
