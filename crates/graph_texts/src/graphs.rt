//! Graphs as texts: the operators, their topological order and the bodies, with ` | ` between them.
//!
//! | Text | Part |
//! |---|---|
//! | `Filter C.A(0 1) 2; Join B(2, 3) 4` | operators: kind, name, the streams of each input port, the streams that they make |
//! | `0 1 2` | the numbers of the operators |
//! | `1: 0 2; 0@0.1: 2 (1 from 0)` | bodies: the composite's number, the number of the body and of the invocation around it, the streams of its names, and each input's number of streams and first one |
use operator_kinds::rules_of;
use spl_tree::{Expansion, Graph, Op};
use test_texts::text::Text;

fn add_numbers(text: &mut Text, numbers: &[u32]) {
    for (at, number) in numbers.iter().enumerate() {
        text.add_between(at, " ");
        text.add_number(i128::from(*number));
    }
}

// Streams, each after a blank.
fn add_streams(text: &mut Text, streams: &[u32]) {
    for stream in streams {
        text.add_place(" ", *stream);
    }
}

fn add_op(text: &mut Text, op: &Op) {
    text.add_bytes(rules_of(op.kind).name);
    text.add(" ");
    text.add_bytes(op.name.as_slice());
    text.add("(");
    for (at, port) in op.ins.as_slice().iter().enumerate() {
        text.add_between(at, ", ");
        add_numbers(text, port.as_slice());
    }
    text.add(")");
    add_streams(text, op.outs.as_slice());
}

fn add_body(text: &mut Text, body: &Expansion) {
    text.add_number(i128::from(body.composite));
    if let Some(site) = body.site {
        text.add_place("@", site.expansion);
        text.add_place(".", site.invocation);
    }
    text.add(":");
    add_streams(text, body.streams.as_slice());
    for input in body.inputs.as_slice() {
        text.add_place(" (", input.count);
        text.add_place(" from ", input.first);
        text.add(")");
    }
}

/// Adds a graph.
pub fn add_graph(text: &mut Text, graph: &Graph) {
    for (at, op) in graph.ops.as_slice().iter().enumerate() {
        text.add_between(at, "; ");
        add_op(text, op);
    }
    text.add(" | ");
    add_numbers(text, graph.topo.as_slice());
    text.add(" | ");
    for (at, body) in graph.expansions.as_slice().iter().enumerate() {
        text.add_between(at, "; ");
        add_body(text, body);
    }
}
