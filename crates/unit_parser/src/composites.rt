//! Composites.
ghost use Rattle.std.specs.Prelude.{[]};
ghost use Rattle.statement_parser.specs.Gives.{Comes, Gives};
ghost use Rattle.unit_parser.specs.steps.GivesComposites.{both_ports_rule, other_ports_rule};
ghost use Rattle.unit_parser.specs.steps.GivesParts.{composite_clauses, parameters_and_types, graph_and_config, composite_parameter};
ghost use Rattle.statement_parser.specs.Lines as lines;

use crate::clauses::parameter_clause;
use crate::invocations::{graph, stream};
use expr_parser::{Taken, name_first, pass, pass_name, symbol_first};
use spl_tree::{
    Composite, CompositeParameter, HeadPort, Invocation, Keyword, OutputStream, Parameter, Placed,
    Symbol, Token, TypeDefinition, TypeExpr,
};
use spl_value::{Items, Name};
use statement_parser::{
    closed, expression_before, name_before, pass_dollar, pass_word, push_taken, read_type_between,
    shape, word_first,
};
use std::alloc::Global;

/// The outputs and the inputs of a head.
type Ports = (Items<HeadPort>, Items<HeadPort>);

/// The clauses `param`, `type`, `graph` and `config` of a composite.
type CompositeClauses = (
    Items<CompositeParameter>,
    Items<TypeDefinition>,
    Items<Invocation>,
    Items<Parameter>,
);

/// A composite, after its first word.
pub(crate) fn composite<'t>(alloc: Global, ts: &'t [Token]) -> Taken<'t, Composite>
    ensures { Gives lines.CompositeOf ts.now result }
{
    let (name, behind) = pass_name(alloc, ts)?;
    let ((outputs, inputs), behind) = head_ports(alloc, behind)?;
    let ((parameters, types, graph, config), behind) = composite_clauses(alloc, behind)?;
    let composite = Composite {
        name,
        outputs,
        inputs,
        parameters,
        types,
        graph,
        config,
    };
    Ok((composite, behind))
}

/// The clauses of a composite, in braces.
fn composite_clauses<'t>(alloc: Global, ts: &'t [Token]) -> Taken<'t, CompositeClauses>
    ensures { Comes composite_clauses ts.now result }
{
    let ((parameters, types), behind) = parameters_and_types(alloc, ts)?;
    let ((graph, config), behind) = graph_and_config(alloc, behind)?;
    Ok(((parameters, types, graph, config), behind))
}

/// The opening brace and the clauses up to `type`.
fn parameters_and_types<'t>(
    alloc: Global,
    ts: &'t [Token],
) -> Taken<'t, (Items<CompositeParameter>, Items<TypeDefinition>)>
    ensures { Comes parameters_and_types ts.now result }
{
    let behind = pass(ts, Symbol::LeftBrace)?;
    let (parameters, behind) = composite_parameter_clause(alloc, behind)?;
    let (types, behind) = type_clause(alloc, behind)?;
    Ok(((parameters, types), behind))
}

/// The clauses from `graph` on and the closing brace.
fn graph_and_config<'t>(
    alloc: Global,
    ts: &'t [Token],
) -> Taken<'t, (Items<Invocation>, Items<Parameter>)>
    ensures { Comes graph_and_config ts.now result }
{
    let (graph, behind) = graph_clause(alloc, ts)?;
    let (config, behind) = parameter_clause(alloc, Keyword::Config, behind)?;
    closed((graph, config), Symbol::RightBrace, behind)
}

/// The ports of a head in parentheses, or none.
fn head_ports<'t>(alloc: Global, ts: &'t [Token]) -> Taken<'t, Ports>
    ensures { Gives lines.HeadPorts ts.now result }
{
    let Some((_, behind)) = symbol_first(ts, Symbol::LeftParen) else {
        return Ok(((Items::new(alloc), Items::new(alloc)), ts));
    };
    match word_first(behind, Keyword::Output) {
        Some((_, behind)) => both_ports(alloc, Keyword::Input, behind),
        None => {
            let behind = pass_word(behind, Keyword::Input)?;
            let ((inputs, outputs), behind) = both_ports(alloc, Keyword::Output, behind)?;
            Ok(((outputs, inputs), behind))
        }
    }
}

/// The ports after the first word of a head, and those after the other word.
fn both_ports<'t>(alloc: Global, word: Keyword, ts: &'t [Token]) -> Taken<'t, Ports>
    ensures { Comes (both_ports_rule word) ts.now result }
{
    let (first, behind) = ports(alloc, ts)?;
    let (second, behind) = other_ports(alloc, word, behind)?;
    Ok(((first, second), behind))
}

/// `;` and the ports after the word, or none, and the closing parenthesis.
fn other_ports<'t>(alloc: Global, word: Keyword, ts: &'t [Token]) -> Taken<'t, Items<HeadPort>>
    ensures { Comes (other_ports_rule word) ts.now result }
{
    let Some((_, behind)) = symbol_first(ts, Symbol::Semicolon) else {
        return closed(Items::new(alloc), Symbol::RightParen, ts);
    };
    let behind = pass_word(behind, word)?;
    let (all, behind) = ports(alloc, behind)?;
    closed(all, Symbol::RightParen, behind)
}

/// One port or more, with commas between them.
fn ports<'t>(alloc: Global, ts: &'t [Token]) -> Taken<'t, Items<HeadPort>>
    ensures { Gives (lines.Ports []) ts.now result }
{
    let mut all = Items::new(alloc);
    let mut at = ts;
    'ports: loop {
        let behind = push_taken(&mut all, port(alloc, at))?;
        let Some((_, after_comma)) = symbol_first(behind, Symbol::Comma) else {
            return Ok((all, behind));
        };
        at = after_comma;
    }
}

/// A port, with its shape or without.
fn port<'t>(alloc: Global, ts: &'t [Token]) -> Taken<'t, HeadPort>
    ensures { Gives lines.Port ts.now result }
{
    let Some((_, behind)) = word_first(ts, Keyword::Stream) else {
        let (name, behind) = pass_name(alloc, ts)?;
        return Ok((HeadPort { shape: None, name }, behind));
    };
    let (one, behind) = stream(alloc, behind)?;
    let OutputStream { shape, name } = one;
    let shape = Some(shape);
    Ok((HeadPort { shape, name }, behind))
}

/// `param` and what follows, or nothing.
fn composite_parameter_clause<'t>(
    alloc: Global,
    ts: &'t [Token],
) -> Taken<'t, Items<CompositeParameter>>
    ensures { Gives lines.CompositeParameterClause ts.now result }
{
    match word_first(ts, Keyword::Param) {
        Some((_, behind)) => composite_parameters(alloc, behind),
        None => Ok((Items::new(alloc), ts)),
    }
}

/// Parameters, as many as follow.
fn composite_parameters<'t>(alloc: Global, ts: &'t [Token]) -> Taken<'t, Items<CompositeParameter>>
    ensures { Gives (lines.CompositeParameters []) ts.now result }
{
    let mut all = Items::new(alloc);
    let mut at = ts;
    'parameters: loop {
        let Some((_, behind)) = word_first(at, Keyword::Expression) else {
            return Ok((all, at));
        };
        let behind = push_taken(&mut all, composite_parameter(alloc, behind))?;
        at = behind;
    }
}

/// A parameter, after its first word.
fn composite_parameter<'t>(alloc: Global, ts: &'t [Token]) -> Taken<'t, CompositeParameter>
    ensures { Comes composite_parameter ts.now result }
{
    let (kind, behind) = read_type_between(alloc, Symbol::Less, Symbol::Greater, ts)?;
    let (name, behind) = pass_dollar(alloc, behind)?;
    defaulted(alloc, kind, name, behind)
}

/// A parameter, after its name.
fn defaulted<'t>(
    alloc: Global,
    kind: TypeExpr,
    name: Placed<Name>,
    ts: &'t [Token],
) -> Taken<'t, CompositeParameter>
    ensures { Gives (lines.Default kind name) ts.now result }
{
    let Some((_, behind)) = symbol_first(ts, Symbol::Colon) else {
        let default = None;
        let one = CompositeParameter {
            kind,
            name,
            default,
        };
        return closed(one, Symbol::Semicolon, ts);
    };
    let (value, behind) = expression_before(alloc, Symbol::Semicolon, behind)?;
    let default = Some(value);
    let one = CompositeParameter {
        kind,
        name,
        default,
    };
    Ok((one, behind))
}

/// `type` and what follows, or nothing.
fn type_clause<'t>(alloc: Global, ts: &'t [Token]) -> Taken<'t, Items<TypeDefinition>>
    ensures { Gives lines.TypeClause ts.now result }
{
    match word_first(ts, Keyword::Type) {
        Some((_, behind)) => types(alloc, behind),
        None => Ok((Items::new(alloc), ts)),
    }
}

/// Names with shapes, as many as follow.
fn types<'t>(alloc: Global, ts: &'t [Token]) -> Taken<'t, Items<TypeDefinition>>
    ensures { Gives (lines.Types []) ts.now result }
{
    let mut all = Items::new(alloc);
    let mut at = ts;
    'types: loop {
        let Some(_) = name_first(at) else {
            return Ok((all, at));
        };
        let behind = push_taken(&mut all, type_definition(alloc, at))?;
        at = behind;
    }
}

/// A name and its shape.
pub(crate) fn type_definition<'t>(alloc: Global, ts: &'t [Token]) -> Taken<'t, TypeDefinition>
    ensures { Gives lines.TypeOf ts.now result }
{
    let (name, behind) = name_before(alloc, Symbol::Assign, ts)?;
    let (shape, behind) = shape(alloc, Symbol::Semicolon, behind)?;
    Ok((TypeDefinition { name, shape }, behind))
}

/// `graph` and what follows, or nothing.
fn graph_clause<'t>(alloc: Global, ts: &'t [Token]) -> Taken<'t, Items<Invocation>>
    ensures { Gives lines.GraphClause ts.now result }
{
    match word_first(ts, Keyword::Graph) {
        Some((_, behind)) => graph(alloc, behind),
        None => Ok((Items::new(alloc), ts)),
    }
}
