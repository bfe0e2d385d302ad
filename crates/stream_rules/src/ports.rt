//! The attributes of the ports of operators.
ghost use Rattle.language_model.specs.Checking.{are_passed, port_types};
ghost use Rattle.language_model.specs.parts.Checking.{outputs_checked};
ghost use Rattle.language_model.specs.Finds.{Finds};
ghost use Rattle.body_sites.specs.Bodies.{body_seen};
ghost use Rattle.stream_rules.specs.Streams.{IsTableOf};

mod inputs;
mod outputs;
mod same;
mod standing;

use crate::streams::StreamTable;
use body_sites::{Body, Sites};
use inputs::ports_attributes;
use language_model::{PortTypes, TypeAnswer, mismatch};
use operator_kinds::rules_of;
use outputs::outputs_attributes;
use same::same_attributes;
use spl_tree::{Graph, Invocation, Op, OpKind, OutputStream};
use spl_value::{Attribute, Schema};
use standing::Streams;
use std::alloc::Global;

/// Each output has to have the attributes of the input.
fn are_passed(
    input: &[Attribute],
    outputs: &[OutputStream],
    schemas: &[Schema],
) -> Result<(), TypeAnswer>
    ensures { Finds (are_passed input.now outputs.now schemas.now) result }
{
    for (at, output) in outputs.iter().enumerate() {
        let Some(schema) = schemas.get(at) else {
            return Ok(());
        };
        if !same_attributes(schema.as_slice(), input) {
            return Err(mismatch(output.shape.at));
        }
    }
    Ok(())
}

fn outputs_checked(
    kind: OpKind,
    outputs: &[OutputStream],
    schemas: &[Schema],
    inputs: &[Schema],
) -> Result<(), TypeAnswer>
    ensures { Finds (outputs_checked kind outputs.now schemas.now inputs.now) result }
{
    match inputs.first() {
        Some(input) if rules_of(kind).passes_on => are_passed(input.as_slice(), outputs, schemas),
        _ => Ok(()),
    }
}

/// The attributes of an operator's inputs and outputs: those of its streams.
///
/// `Refused` is the first refusal of a stream, outputs before inputs, or a mismatch: at the shape of an
/// output or input of a composite's head, or of an output of an invocation of a composite, that has
/// other attributes; at a name of a port by which a stream of other attributes comes than those of
/// the first; or at the shape of an output of an operator that passes tuples on, which has other ones
/// than its input. `Memory` is also the answer for inputs of heads that stand in one another more than 1,000
/// deep.
pub fn port_types(
    alloc: Global,
    sites: &Sites,
    graph: &Graph,
    streams: &StreamTable,
    body: &Body,
    op: &Op,
    invocation: &Invocation,
) -> Result<PortTypes, TypeAnswer>
    requires { IsTableOf sites.now.unit.now graph.now streams.now }
    ensures { Finds (port_types sites.now.unit.now graph.now (body_seen body.now) op.now invocation.now) result }
{
    let streams = Streams {
        sites,
        graph,
        table: streams,
    };
    let outputs = invocation.outputs.as_slice();
    let outs = outputs_attributes(alloc, &streams, body, outputs, op.outs.as_slice())?;
    let inputs = invocation.inputs.as_slice();
    let ins = ports_attributes(alloc, &streams, body, inputs, op.ins.as_slice())?;
    outputs_checked(op.kind, outputs, outs.as_slice(), ins.as_slice())?;
    Ok(PortTypes { ins, outs })
}
