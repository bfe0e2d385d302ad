//! Units, and what they define.
ghost use Rattle.std.specs.Prelude.{◌≡◌, []};
ghost use Rattle.expr_parser.specs.Taken.{begins_with};
ghost use Rattle.statement_parser.specs.Gives.{Comes, Gives};
ghost use Rattle.unit_parser.specs.steps.GivesComposites.{Defines, DefinesOn, PassesNames, begins_type, composite_behind, function_behind, is_type_front, word_begins_type};
ghost use Rattle.unit_parser.specs.steps.GivesParts.{signature};
ghost use Rattle.statement_parser.specs.Lines as lines;

use crate::composites::{composite, type_definition};
use expr_parser::{Stop, Taken, pass, pass_name, symbol_first};
use spl_tree::{
    Attributes, Definition, FunctionDefinition, Keyword, Placed, Symbol, Token, TokenKind,
    TypeExpr, Unit,
};
use spl_value::{Items, Name};
use statement_parser::{block, function_parameters, name_before, pass_word, read_type, word_first};
use std::alloc::Global;

/// A unit.
pub(crate) fn unit<'t>(alloc: Global, ts: &'t [Token]) -> Taken<'t, Unit>
    ensures { Gives lines.Whole ts.now result }
{
    match word_first(ts, Keyword::Namespace) {
        Some((_, behind)) => {
            let behind = namespace(alloc, behind)?;
            definitions(alloc, behind)
        }
        None => definitions(alloc, ts),
    }
}

/// The names of a namespace, up to the `;`, and the tokens after it.
fn namespace<'t>(alloc: Global, ts: &'t [Token]) -> Result<&'t [Token], Stop<'t>>
    ensures { PassesNames ts.now result }
{
    let mut at = ts;
    'names: loop {
        let (_, behind) = pass_name(alloc, at)?;
        let Some((_, behind)) = symbol_first(behind, Symbol::Dot) else {
            return pass(behind, Symbol::Semicolon);
        };
        at = behind;
    }
}

/// Definitions, as many as follow.
fn definitions<'t>(alloc: Global, ts: &'t [Token]) -> Taken<'t, Unit>
    ensures { Gives (lines.Definitions []) ts.now result }
{
    let mut all = Items::new(alloc);
    let mut at = ts;
    'definitions: loop {
        let (found, behind) = definition(alloc, at)?;
        let Some(one) = found else {
            return Ok((all, behind));
        };
        all.push(one)?;
        at = behind;
    }
}

/// A definition, or none where none begins.
fn definition<'t>(alloc: Global, ts: &'t [Token]) -> Taken<'t, Option<Definition>>
    ensures { DefinesOn ts.now result }
{
    if let Some((_, behind)) = word_first(ts, Keyword::Type) {
        let (one, behind) = type_definition(alloc, behind)?;
        return Ok((Some(Definition::Type(one)), behind));
    }
    if let Some((_, behind)) = word_first(ts, Keyword::Public) {
        let behind = pass_word(behind, Keyword::Composite)?;
        return composite_defined(alloc, behind);
    }
    if let Some((_, behind)) = word_first(ts, Keyword::Composite) {
        return composite_defined(alloc, behind);
    }
    if let Some((_, behind)) = word_first(ts, Keyword::Void) {
        return function_defined(alloc, None, behind);
    }
    if !type_begins(ts) {
        return Ok((None, ts));
    }
    let (kind, behind) = read_type(alloc, ts)?;
    function_defined(alloc, Some(kind), behind)
}

/// A composite, after its first words.
fn composite_defined<'t>(alloc: Global, ts: &'t [Token]) -> Taken<'t, Option<Definition>>
    ensures { Defines composite_behind ts.now result }
{
    let (one, behind) = composite(alloc, ts)?;
    Ok((Some(Definition::Composite(one)), behind))
}

/// A function, after the type of its result.
fn function_defined<'t>(
    alloc: Global,
    kind: Option<TypeExpr>,
    ts: &'t [Token],
) -> Taken<'t, Option<Definition>>
    ensures { Defines (function_behind kind) ts.now result }
{
    let (one, behind) = function(alloc, kind, ts)?;
    Ok((Some(Definition::Function(one)), behind))
}

/// Whether the first token can begin a type.
fn type_begins(ts: &[Token]) -> bool
    ensures { result ≡ begins_with is_type_front ts.now }
{
    match ts.first() {
        Some(token) => begins_type(&token.kind),
        None => false,
    }
}

fn begins_type(kind: &TokenKind) -> bool
    ensures { result ≡ begins_type kind.now }
{
    match kind {
        TokenKind::Word(_) => true,
        TokenKind::Keyword(word) => word_begins_type(*word),
        _ => false,
    }
}

fn word_begins_type(word: Keyword) -> bool
    ensures { result ≡ word_begins_type word }
{
    matches!(
        word,
        Keyword::Boolean
            | Keyword::Rstring
            | Keyword::Int(_)
            | Keyword::LeftOut(_)
            | Keyword::List
            | Keyword::Map
            | Keyword::Tuple
    )
}

/// A function, after the type of its result.
fn function<'t>(
    alloc: Global,
    kind: Option<TypeExpr>,
    ts: &'t [Token],
) -> Taken<'t, FunctionDefinition>
    ensures { Gives (lines.FunctionOf kind) ts.now result }
{
    let ((name, parameters), behind) = signature(alloc, ts)?;
    let (body, behind) = block(alloc, behind)?;
    let function = FunctionDefinition {
        result: kind,
        name,
        parameters,
        body,
    };
    Ok((function, behind))
}

/// The name of a function and its parameters.
fn signature<'t>(alloc: Global, ts: &'t [Token]) -> Taken<'t, (Placed<Name>, Attributes)>
    ensures { Comes signature ts.now result }
{
    let (name, behind) = name_before(alloc, Symbol::LeftParen, ts)?;
    let (parameters, behind) = function_parameters(alloc, behind)?;
    Ok(((name, parameters), behind))
}
