//! The clauses of an invocation.
ghost use Rattle.std.specs.Prelude.{[]};
ghost use Rattle.statement_parser.specs.Gives.{Comes, Gives};
ghost use Rattle.unit_parser.specs.steps.GivesClauses.{EventFirst};
ghost use Rattle.unit_parser.specs.steps.GivesParts.{logic_and_window, param_to_config, output_and_config, port_window, window_part, parameter, stream_assignments, assignment};
ghost use Rattle.statement_parser.specs.Lines as lines;

use crate::declarations::declarations;
use expr_parser::{
    Taken, name_first, pass, pass_name, read_elements, read_expression, read_items, symbol_first,
};
use spl_tree::{
    Clauses, Declaration, Expr, Exprs, Field, Fields, HandledEvent, Handler, Keyword, Logic,
    OutputAssignments, Parameter, Placed, PortWindow, Symbol, Token, WindowPart,
};
use spl_value::Items;
use statement_parser::{block, closed, declaration, name_before, push_taken, word_first};
use std::alloc::Global;

/// `output` with its assignments, or nothing.
type OutputClause = Option<Placed<Items<OutputAssignments>>>;

/// What ends an invocation: `;`, or its clauses between braces.
pub(crate) fn end<'t>(alloc: Global, ts: &'t [Token]) -> Taken<'t, Clauses>
    ensures { Gives lines.End ts.now result }
{
    if let Some((_, behind)) = symbol_first(ts, Symbol::Semicolon) {
        let clauses = Clauses {
            logic: None,
            window: None,
            parameters: Items::new(alloc),
            output: None,
            config: Items::new(alloc),
        };
        return Ok((clauses, behind));
    }
    let behind = pass(ts, Symbol::LeftBrace)?;
    let ((logic, window), behind) = logic_and_window(alloc, behind)?;
    let ((parameters, output, config), behind) = param_to_config(alloc, behind)?;
    let clauses = Clauses {
        logic,
        window,
        parameters,
        output,
        config,
    };
    Ok((clauses, behind))
}

/// The clauses `logic` and `window`.
fn logic_and_window<'t>(
    alloc: Global,
    ts: &'t [Token],
) -> Taken<'t, (Option<Placed<Logic>>, Option<Placed<Items<PortWindow>>>)>
    ensures { Comes logic_and_window ts.now result }
{
    let (logic, behind) = logic(alloc, ts)?;
    let (window, behind) = window(alloc, behind)?;
    Ok(((logic, window), behind))
}

/// The clauses `param`, `output` and `config`, and the closing brace.
fn param_to_config<'t>(
    alloc: Global,
    ts: &'t [Token],
) -> Taken<'t, (Items<Parameter>, OutputClause, Items<Parameter>)>
    ensures { Comes param_to_config ts.now result }
{
    let (parameters, behind) = parameter_clause(alloc, Keyword::Param, ts)?;
    let ((output, config), behind) = output_and_config(alloc, behind)?;
    Ok(((parameters, output, config), behind))
}

/// The clauses `output` and `config`, and the closing brace.
fn output_and_config<'t>(
    alloc: Global,
    ts: &'t [Token],
) -> Taken<'t, (OutputClause, Items<Parameter>)>
    ensures { Comes output_and_config ts.now result }
{
    let (output, behind) = output(alloc, ts)?;
    let (config, behind) = parameter_clause(alloc, Keyword::Config, behind)?;
    closed((output, config), Symbol::RightBrace, behind)
}

/// `logic` and what follows, or nothing.
fn logic<'t>(alloc: Global, ts: &'t [Token]) -> Taken<'t, Option<Placed<Logic>>>
    ensures { Gives lines.LogicClause ts.now result }
{
    let Some((word, behind)) = word_first(ts, Keyword::Logic) else {
        return Ok((None, ts));
    };
    let (state, behind) = state(alloc, behind)?;
    let (handlers, behind) = handlers(alloc, behind)?;
    let at = word.start;
    let what = Logic { state, handlers };
    Ok((Some(Placed { at, what }), behind))
}

/// The variables of a state, or none.
fn state<'t>(alloc: Global, ts: &'t [Token]) -> Taken<'t, Items<Declaration>>
    ensures { Gives lines.State ts.now result }
{
    let Some((_, behind)) = word_first(ts, Keyword::State) else {
        return Ok((Items::new(alloc), ts));
    };
    let behind = pass(behind, Symbol::Colon)?;
    if let Some((_, behind)) = symbol_first(behind, Symbol::LeftBrace) {
        return declarations(alloc, behind);
    }
    let mut all = Items::new(alloc);
    let behind = push_taken(&mut all, declaration(alloc, behind))?;
    Ok((all, behind))
}

/// Handlers of events, as many as follow.
fn handlers<'t>(alloc: Global, ts: &'t [Token]) -> Taken<'t, Items<Placed<Handler>>>
    ensures { Gives (lines.Handlers []) ts.now result }
{
    let mut all = Items::new(alloc);
    let mut at = ts;
    'handlers: loop {
        let Some((place, event, behind)) = event_first(at) else {
            return Ok((all, at));
        };
        let behind = push_taken(&mut all, handler(alloc, place, event, behind))?;
        at = behind;
    }
}

/// The event that the first word handles, with its place, and the tokens after it.
fn event_first(ts: &[Token]) -> Option<(u32, HandledEvent, &[Token])>
    ensures { EventFirst ts.now result }
{
    if let Some((word, behind)) = word_first(ts, Keyword::OnTuple) {
        return Some((word.start, HandledEvent::Tuple, behind));
    }
    let (word, behind) = word_first(ts, Keyword::OnPunct)?;
    Some((word.start, HandledEvent::Punctuation, behind))
}

/// A handler, after its first word.
fn handler<'t>(
    alloc: Global,
    at: u32,
    event: HandledEvent,
    ts: &'t [Token],
) -> Taken<'t, Placed<Handler>>
    ensures { Gives (lines.HandlerOf at event) ts.now result }
{
    let (port, behind) = name_before(alloc, Symbol::Colon, ts)?;
    let (body, behind) = block(alloc, behind)?;
    let what = Handler { event, port, body };
    Ok((Placed { at, what }, behind))
}

/// `window` and what follows, or nothing.
fn window<'t>(alloc: Global, ts: &'t [Token]) -> Taken<'t, Option<Placed<Items<PortWindow>>>>
    ensures { Gives lines.WindowClause ts.now result }
{
    let Some((word, behind)) = word_first(ts, Keyword::Window) else {
        return Ok((None, ts));
    };
    let (what, behind) = windows(alloc, behind)?;
    let at = word.start;
    Ok((Some(Placed { at, what }), behind))
}

/// The windows of ports, as many as follow.
fn windows<'t>(alloc: Global, ts: &'t [Token]) -> Taken<'t, Items<PortWindow>>
    ensures { Gives (lines.Windows []) ts.now result }
{
    let mut all = Items::new(alloc);
    let mut at = ts;
    'windows: loop {
        let Some(_) = name_first(at) else {
            return Ok((all, at));
        };
        let behind = push_taken(&mut all, port_window(alloc, at))?;
        at = behind;
    }
}

/// The window of a port.
fn port_window<'t>(alloc: Global, ts: &'t [Token]) -> Taken<'t, PortWindow>
    ensures { Comes port_window ts.now result }
{
    let (port, behind) = name_before(alloc, Symbol::Colon, ts)?;
    let (parts, behind) = window_parts(alloc, behind)?;
    Ok((PortWindow { port, parts }, behind))
}

/// One part of a window or more, with commas between them, up to the `;`.
fn window_parts<'t>(alloc: Global, ts: &'t [Token]) -> Taken<'t, Items<WindowPart>>
    ensures { Gives (lines.WindowParts []) ts.now result }
{
    let mut all = Items::new(alloc);
    let mut at = ts;
    'parts: loop {
        let behind = push_taken(&mut all, window_part(alloc, at))?;
        let Some((_, behind)) = symbol_first(behind, Symbol::Comma) else {
            return closed(all, Symbol::Semicolon, behind);
        };
        at = behind;
    }
}

/// A part of a window.
fn window_part<'t>(alloc: Global, ts: &'t [Token]) -> Taken<'t, WindowPart>
    ensures { Comes window_part ts.now result }
{
    let (name, behind) = pass_name(alloc, ts)?;
    let (arguments, behind) = part_arguments(alloc, behind)?;
    Ok((WindowPart { name, arguments }, behind))
}

/// Arguments in parentheses, or none.
fn part_arguments<'t>(alloc: Global, ts: &'t [Token]) -> Taken<'t, Option<Exprs>>
    ensures { Gives lines.PartArguments ts.now result }
{
    let Some((_, behind)) = symbol_first(ts, Symbol::LeftParen) else {
        return Ok((None, ts));
    };
    let (arguments, behind) = read_elements(alloc, Symbol::RightParen, behind)?;
    Ok((Some(arguments), behind))
}

/// `param` or `config`, and what follows, or nothing.
pub(crate) fn parameter_clause<'t>(
    alloc: Global,
    word: Keyword,
    ts: &'t [Token],
) -> Taken<'t, Items<Parameter>>
    ensures { Gives (lines.ParameterClause word) ts.now result }
{
    match word_first(ts, word) {
        Some((_, behind)) => parameters(alloc, behind),
        None => Ok((Items::new(alloc), ts)),
    }
}

/// Names with values, as many as follow.
fn parameters<'t>(alloc: Global, ts: &'t [Token]) -> Taken<'t, Items<Parameter>>
    ensures { Gives (lines.Parameters []) ts.now result }
{
    let mut all = Items::new(alloc);
    let mut at = ts;
    'parameters: loop {
        let Some(_) = name_first(at) else {
            return Ok((all, at));
        };
        let behind = push_taken(&mut all, parameter(alloc, at))?;
        at = behind;
    }
}

/// A name with values.
fn parameter<'t>(alloc: Global, ts: &'t [Token]) -> Taken<'t, Parameter>
    ensures { Comes parameter ts.now result }
{
    let (name, behind) = name_before(alloc, Symbol::Colon, ts)?;
    let (values, behind) = read_items(alloc, Symbol::Semicolon, behind)?;
    Ok((Parameter { name, values }, behind))
}

/// `output` and what follows, or nothing.
fn output<'t>(alloc: Global, ts: &'t [Token]) -> Taken<'t, OutputClause>
    ensures { Gives lines.OutputClause ts.now result }
{
    let Some((word, behind)) = word_first(ts, Keyword::Output) else {
        return Ok((None, ts));
    };
    let (what, behind) = outputs(alloc, behind)?;
    let at = word.start;
    Ok((Some(Placed { at, what }), behind))
}

/// Assignments for streams, as many as follow.
fn outputs<'t>(alloc: Global, ts: &'t [Token]) -> Taken<'t, Items<OutputAssignments>>
    ensures { Gives (lines.Outputs []) ts.now result }
{
    let mut all = Items::new(alloc);
    let mut at = ts;
    'outputs: loop {
        let Some(_) = name_first(at) else {
            return Ok((all, at));
        };
        let behind = push_taken(&mut all, stream_assignments(alloc, at))?;
        at = behind;
    }
}

/// Assignments for a stream.
fn stream_assignments<'t>(alloc: Global, ts: &'t [Token]) -> Taken<'t, OutputAssignments>
    ensures { Comes stream_assignments ts.now result }
{
    let (stream, behind) = name_before(alloc, Symbol::Colon, ts)?;
    let (assignments, behind) = assignments(alloc, behind)?;
    let one = OutputAssignments {
        stream,
        assignments,
    };
    Ok((one, behind))
}

/// One assignment of an attribute or more, with commas between them, up to the `;`.
fn assignments<'t>(alloc: Global, ts: &'t [Token]) -> Taken<'t, Fields>
    ensures { Gives (lines.Assignments []) ts.now result }
{
    let mut all = Items::new(alloc);
    let mut at = ts;
    'assignments: loop {
        let behind = push_taken(&mut all, assignment(alloc, at))?;
        let Some((_, behind)) = symbol_first(behind, Symbol::Comma) else {
            return closed(all, Symbol::Semicolon, behind);
        };
        at = behind;
    }
}

/// An assignment of an attribute.
fn assignment<'t>(alloc: Global, ts: &'t [Token]) -> Taken<'t, Field<Expr>>
    ensures { Comes assignment ts.now result }
{
    let (name, behind) = name_before(alloc, Symbol::Assign, ts)?;
    let (value, behind) = read_expression(alloc, behind)?;
    Ok((Field { name, value }, behind))
}
