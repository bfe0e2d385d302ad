//! Invocations and their clauses as texts.
use crate::add_name;
use crate::expressions::{add_expressions, add_fields};
use crate::statements::{add_block, add_declaration};
use crate::types::add_shape;
use spl_tree::{
    Clauses, Declaration, HandledEvent, Handler, InputPort, Invocation, Logic, OutputAssignments,
    OutputStream, Parameter, Placed, PortWindow, WindowPart,
};
use spl_value::Name;
use test_texts::text::Text;

fn add_alias(text: &mut Text, alias: Option<&Placed<Name>>) {
    if let Some(name) = alias {
        text.add(" as ");
        add_name(text, name);
    }
}

fn add_outputs(text: &mut Text, outputs: &[OutputStream]) {
    text.add("(");
    for (at, output) in outputs.iter().enumerate() {
        text.add_between(at, "; ");
        text.add("stream<");
        add_shape(text, &output.shape);
        text.add("> ");
        add_name(text, &output.name);
    }
    text.add(")");
}

fn add_input(text: &mut Text, input: &InputPort) {
    for (at, stream) in input.streams.as_slice().iter().enumerate() {
        text.add_between(at, ", ");
        add_name(text, stream);
    }
    add_alias(text, input.alias.as_ref());
}

fn add_inputs(text: &mut Text, inputs: &[InputPort]) {
    text.add("(");
    for (at, input) in inputs.iter().enumerate() {
        text.add_between(at, "; ");
        add_input(text, input);
    }
    text.add(")");
}

/// Adds an invocation. The streams that it makes stand in parentheses.
pub fn add_invocation(text: &mut Text, invocation: &Invocation) {
    text.add_at(invocation.at);
    add_outputs(text, invocation.outputs.as_slice());
    add_alias(text, invocation.alias.as_ref());
    text.add(" = ");
    add_name(text, &invocation.operator);
    add_inputs(text, invocation.inputs.as_slice());
    add_clauses(text, &invocation.clauses);
}

fn add_clauses(text: &mut Text, clauses: &Clauses) {
    if let Some(logic) = &clauses.logic {
        add_logic(text, logic);
    }
    if let Some(window) = &clauses.window {
        add_window(text, window.at, window.what.as_slice());
    }
    add_parameters(text, " param [", clauses.parameters.as_slice());
    if let Some(output) = &clauses.output {
        add_assignments(text, output.at, output.what.as_slice());
    }
    add_parameters(text, " config [", clauses.config.as_slice());
}

fn add_logic(text: &mut Text, logic: &Placed<Logic>) {
    text.add(" ");
    text.add_at(logic.at);
    text.add("logic [");
    let state = logic.what.state.as_slice();
    if !state.is_empty() {
        add_state(text, state);
    }
    for (at, handler) in logic.what.handlers.as_slice().iter().enumerate() {
        if at > 0 || !state.is_empty() {
            text.add(" ");
        }
        add_handler(text, handler);
    }
    text.add("]");
}

fn add_state(text: &mut Text, state: &[Declaration]) {
    text.add("state [");
    for (at, declaration) in state.iter().enumerate() {
        text.add_between(at, "; ");
        add_declaration(text, declaration);
    }
    text.add("]");
}

fn add_handler(text: &mut Text, handler: &Placed<Handler>) {
    text.add_at(handler.at);
    text.add(match handler.what.event {
        HandledEvent::Tuple => "onTuple ",
        HandledEvent::Punctuation => "onPunct ",
    });
    add_name(text, &handler.what.port);
    text.add(" ");
    add_block(text, handler.what.body.as_slice());
}

fn add_window(text: &mut Text, place: u32, windows: &[PortWindow]) {
    text.add(" ");
    text.add_at(place);
    text.add("window [");
    for (at, window) in windows.iter().enumerate() {
        text.add_between(at, "; ");
        add_name(text, &window.port);
        text.add(": ");
        add_parts(text, window.parts.as_slice());
    }
    text.add("]");
}

fn add_parts(text: &mut Text, parts: &[WindowPart]) {
    for (at, part) in parts.iter().enumerate() {
        text.add_between(at, ", ");
        add_name(text, &part.name);
        if let Some(arguments) = &part.arguments {
            text.add("(");
            add_expressions(text, arguments.as_slice());
            text.add(")");
        }
    }
}

/// Adds names with their values, if there are some, after what begins their clause.
pub fn add_parameters(text: &mut Text, begin: &str, parameters: &[Parameter]) {
    if parameters.is_empty() {
        return;
    }
    text.add(begin);
    for (at, parameter) in parameters.iter().enumerate() {
        text.add_between(at, "; ");
        add_name(text, &parameter.name);
        text.add(": ");
        add_expressions(text, parameter.values.as_slice());
    }
    text.add("]");
}

fn add_assignments(text: &mut Text, place: u32, assignments: &[OutputAssignments]) {
    text.add(" ");
    text.add_at(place);
    text.add("output [");
    for (at, one) in assignments.iter().enumerate() {
        text.add_between(at, "; ");
        add_name(text, &one.stream);
        text.add(": ");
        add_fields(text, one.assignments.as_slice());
    }
    text.add("]");
}
