//! Invocations of operators and composites.
ghost use Rattle.std.specs.Prelude.{[]};
ghost use Rattle.statement_parser.specs.Gives.{Comes, Gives};
ghost use Rattle.unit_parser.specs.steps.GivesClauses.{InvocationsOn};
ghost use Rattle.unit_parser.specs.steps.GivesParts.{operator_and_inputs, listed_stream, input_port};
ghost use Rattle.statement_parser.specs.Lines as lines;

use crate::clauses::end;
use expr_parser::{Stop, Taken, pass, pass_name, symbol_first};
use spl_tree::{InputPort, Invocation, Keyword, OutputStream, Placed, Symbol, Token};
use spl_value::{Items, Name};
use statement_parser::{closed, name_before, pass_word, push_taken, shape, word_first};
use std::alloc::Global;

/// The streams that an invocation makes, and its alias.
type Head = (Items<OutputStream>, Option<Placed<Name>>);

/// Invocations, as many as follow.
pub(crate) fn graph<'t>(alloc: Global, ts: &'t [Token]) -> Taken<'t, Items<Invocation>>
    ensures { Gives (lines.Graph []) ts.now result }
{
    let mut all = Items::new(alloc);
    let mut at = ts;
    'invocations: loop {
        let (found, behind) = invocation(alloc, at)?;
        let Some(one) = found else {
            return Ok((all, behind));
        };
        all.push(one)?;
        at = behind;
    }
}

/// An invocation, or none where none begins.
fn invocation<'t>(alloc: Global, ts: &'t [Token]) -> Taken<'t, Option<Invocation>>
    ensures { InvocationsOn ts.now result }
{
    if let Some((word, behind)) = word_first(ts, Keyword::Stream) {
        let (head, behind) = stream_head(alloc, behind)?;
        let (one, behind) = invoked(alloc, word.start, head, behind)?;
        return Ok((Some(one), behind));
    }
    let Some((open, behind)) = symbol_first(ts, Symbol::LeftParen) else {
        return Ok((None, ts));
    };
    let (head, behind) = list_head(alloc, behind)?;
    let (one, behind) = invoked(alloc, open.start, head, behind)?;
    Ok((Some(one), behind))
}

/// A head of one stream, after the word `stream`.
fn stream_head<'t>(alloc: Global, ts: &'t [Token]) -> Taken<'t, Head>
    ensures { Gives lines.StreamHead ts.now result }
{
    let mut outputs = Items::new(alloc);
    let behind = push_taken(&mut outputs, stream(alloc, ts))?;
    let (alias, behind) = alias(alloc, behind)?;
    Ok(((outputs, alias), behind))
}

/// A head in parentheses, after the opening one.
fn list_head<'t>(alloc: Global, ts: &'t [Token]) -> Taken<'t, Head>
    ensures { Gives lines.ListHead ts.now result }
{
    if let Some((_, behind)) = symbol_first(ts, Symbol::RightParen) {
        let behind = pass_word(behind, Keyword::As)?;
        let (name, behind) = pass_name(alloc, behind)?;
        return Ok(((Items::new(alloc), Some(name)), behind));
    }
    let (outputs, behind) = streams(alloc, ts)?;
    let (alias, behind) = alias(alloc, behind)?;
    Ok(((outputs, alias), behind))
}

/// A stream, after the word `stream`.
pub(crate) fn stream<'t>(alloc: Global, ts: &'t [Token]) -> Taken<'t, OutputStream>
    ensures { Gives lines.Stream ts.now result }
{
    let behind = pass(ts, Symbol::Less)?;
    let (shape, behind) = shape(alloc, Symbol::Greater, behind)?;
    let (name, behind) = pass_name(alloc, behind)?;
    Ok((OutputStream { shape, name }, behind))
}

/// One stream or more, with `;` between them, up to the closing parenthesis.
fn streams<'t>(alloc: Global, ts: &'t [Token]) -> Taken<'t, Items<OutputStream>>
    ensures { Gives (lines.Streams []) ts.now result }
{
    let mut all = Items::new(alloc);
    let mut at = ts;
    'streams: loop {
        let behind = push_taken(&mut all, listed_stream(alloc, at))?;
        let Some((_, behind)) = symbol_first(behind, Symbol::Semicolon) else {
            return closed(all, Symbol::RightParen, behind);
        };
        at = behind;
    }
}

/// A stream with the word before it.
fn listed_stream<'t>(alloc: Global, ts: &'t [Token]) -> Taken<'t, OutputStream>
    ensures { Comes listed_stream ts.now result }
{
    let behind = pass_word(ts, Keyword::Stream)?;
    stream(alloc, behind)
}

/// `as` and a name, or neither.
fn alias<'t>(alloc: Global, ts: &'t [Token]) -> Taken<'t, Option<Placed<Name>>>
    ensures { Gives lines.Alias ts.now result }
{
    let Some((_, behind)) = word_first(ts, Keyword::As) else {
        return Ok((None, ts));
    };
    let (name, behind) = pass_name(alloc, behind)?;
    Ok((Some(name), behind))
}

/// An invocation, after its head.
fn invoked<'t>(alloc: Global, at: u32, head: Head, ts: &'t [Token]) -> Taken<'t, Invocation>
    ensures { Gives (lines.Invoked at head.0 head.1) ts.now result }
{
    let (outputs, alias) = head;
    let ((operator, inputs), behind) = operator_and_inputs(alloc, ts)?;
    let (clauses, behind) = end(alloc, behind)?;
    let one = Invocation {
        at,
        outputs,
        alias,
        operator,
        inputs,
        clauses,
    };
    Ok((one, behind))
}

/// What is invoked, after a head, and its inputs.
fn operator_and_inputs<'t>(
    alloc: Global,
    ts: &'t [Token],
) -> Taken<'t, (Placed<Name>, Items<InputPort>)>
    ensures { Comes operator_and_inputs ts.now result }
{
    let behind = pass(ts, Symbol::Assign)?;
    let (operator, behind) = name_before(alloc, Symbol::LeftParen, behind)?;
    let (inputs, behind) = inputs(alloc, behind)?;
    Ok(((operator, inputs), behind))
}

/// Input ports up to the closing parenthesis, or none.
fn inputs<'t>(alloc: Global, ts: &'t [Token]) -> Taken<'t, Items<InputPort>>
    ensures { Gives lines.Inputs ts.now result }
{
    match symbol_first(ts, Symbol::RightParen) {
        Some((_, behind)) => Ok((Items::new(alloc), behind)),
        None => more_inputs(alloc, ts),
    }
}

/// One input port or more, with `;` between them, up to the closing parenthesis.
fn more_inputs<'t>(alloc: Global, ts: &'t [Token]) -> Taken<'t, Items<InputPort>>
    ensures { Gives (lines.MoreInputs []) ts.now result }
{
    let mut all = Items::new(alloc);
    let mut at = ts;
    'inputs: loop {
        let behind = push_taken(&mut all, input_port(alloc, at))?;
        let Some((_, behind)) = symbol_first(behind, Symbol::Semicolon) else {
            return closed(all, Symbol::RightParen, behind);
        };
        at = behind;
    }
}

/// An input port.
fn input_port<'t>(alloc: Global, ts: &'t [Token]) -> Taken<'t, InputPort>
    ensures { Comes input_port ts.now result }
{
    let (streams, behind) = input_streams(alloc, ts)?;
    let (alias, behind) = alias(alloc, behind)?;
    Ok((InputPort { streams, alias }, behind))
}

/// One stream of a port or more, with commas between them.
fn input_streams<'t>(alloc: Global, ts: &'t [Token]) -> Taken<'t, Items<Placed<Name>>>
    ensures { Gives (lines.InputStreams []) ts.now result }
{
    let mut all = Items::new(alloc);
    let mut at = ts;
    'streams: loop {
        let behind = push_taken(&mut all, pass_name(alloc, at))?;
        let Some((_, after_comma)) = symbol_first(behind, Symbol::Comma) else {
            return Ok((all, behind));
        };
        at = after_comma;
    }
}
