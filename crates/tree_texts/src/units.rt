//! Units as texts.
use crate::add_name;
use crate::expressions::add_expression;
use crate::invocations::{add_invocation, add_parameters};
use crate::statements::add_block;
use crate::types::{add_attributes, add_shape, add_type};
use spl_tree::{
    Composite, CompositeParameter, Definition, FunctionDefinition, HeadPort, Invocation,
    TypeDefinition, Unit,
};
use test_texts::text::Text;

fn add_type_definition(text: &mut Text, definition: &TypeDefinition) {
    add_name(text, &definition.name);
    text.add(" = ");
    add_shape(text, &definition.shape);
}

fn add_function(text: &mut Text, function: &FunctionDefinition) {
    match &function.result {
        Some(kind) => add_type(text, kind),
        None => text.add("void"),
    }
    text.add(" ");
    add_name(text, &function.name);
    text.add("(");
    add_attributes(text, function.parameters.as_slice());
    text.add(") ");
    add_block(text, function.body.as_slice());
}

// The ports of a head, if there are some, after their word.
fn add_ports(text: &mut Text, word: &str, ports: &[HeadPort]) {
    for (at, port) in ports.iter().enumerate() {
        text.add(if at == 0 { word } else { ", " });
        if let Some(shape) = &port.shape {
            text.add("stream<");
            add_shape(text, shape);
            text.add("> ");
        }
        add_name(text, &port.name);
    }
}

fn add_head(text: &mut Text, outputs: &[HeadPort], inputs: &[HeadPort]) {
    if outputs.is_empty() && inputs.is_empty() {
        return;
    }
    text.add("(");
    add_ports(text, "output ", outputs);
    if !outputs.is_empty() && !inputs.is_empty() {
        text.add("; ");
    }
    add_ports(text, "input ", inputs);
    text.add(")");
}

fn add_composite_parameters(text: &mut Text, parameters: &[CompositeParameter]) {
    if parameters.is_empty() {
        return;
    }
    text.add(" param [");
    for (at, parameter) in parameters.iter().enumerate() {
        text.add_between(at, "; ");
        text.add("<");
        add_type(text, &parameter.kind);
        text.add("> $");
        add_name(text, &parameter.name);
        if let Some(default) = &parameter.default {
            text.add(": ");
            add_expression(text, default);
        }
    }
    text.add("]");
}

fn add_types(text: &mut Text, types: &[TypeDefinition]) {
    if types.is_empty() {
        return;
    }
    text.add(" type [");
    for (at, definition) in types.iter().enumerate() {
        text.add_between(at, "; ");
        add_type_definition(text, definition);
    }
    text.add("]");
}

fn add_graph(text: &mut Text, graph: &[Invocation]) {
    if graph.is_empty() {
        return;
    }
    text.add(" graph [");
    for (at, invocation) in graph.iter().enumerate() {
        text.add_between(at, "; ");
        add_invocation(text, invocation);
    }
    text.add("]");
}

fn add_composite(text: &mut Text, composite: &Composite) {
    text.add("composite ");
    add_name(text, &composite.name);
    add_head(
        text,
        composite.outputs.as_slice(),
        composite.inputs.as_slice(),
    );
    add_composite_parameters(text, composite.parameters.as_slice());
    add_types(text, composite.types.as_slice());
    add_graph(text, composite.graph.as_slice());
    add_parameters(text, " config [", composite.config.as_slice());
}

/// Adds a unit: its definitions, or `nothing`.
pub fn add_unit(text: &mut Text, unit: &Unit) {
    if unit.is_empty() {
        text.add("nothing");
    }
    for (at, definition) in unit.as_slice().iter().enumerate() {
        text.add_between(at, "; ");
        match definition {
            Definition::Type(one) => {
                text.add("type ");
                add_type_definition(text, one);
            }
            Definition::Function(one) => add_function(text, one),
            Definition::Composite(one) => add_composite(text, one),
        }
    }
}
