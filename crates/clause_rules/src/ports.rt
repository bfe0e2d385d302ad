//! How many ports an operator has, and what they are called.
ghost use Rattle.std.specs.Prelude.{◌≡◌, IfOk};
ghost use Rattle.language_model.specs.Checking.{config_checked, fit_ports, port_name};
ghost use Rattle.language_model.specs.parts.Checking.{ports_checked};
ghost use Rattle.language_model.specs.Finds.{Finds};
ghost use Rattle.language_model.specs.Kinds.{is_within};
ghost use Rattle.clause_rules.specs.steps.Operators.{named};

use language_model::{CheckError, Port, PortBounds, TypeAnswer, refused, refused_name};
use operator_kinds::rules_of;
use spl_tree::{InputPort, Invocation, Op, OpKind, OutputStream, Parameter};
use spl_value::{Items, Name, NoMemory, Schema};
use std::alloc::Global;

fn is_within(bounds: PortBounds, count: usize) -> bool
    ensures { result ≡ is_within bounds count }
{
    bounds.least <= count && count <= bounds.most
}

/// Whether an operator of the kind may have these numbers of inputs and outputs.
fn may_have(kind: OpKind, ins: usize, outs: usize) -> bool
    ensures { result ≡ fit_ports kind ins outs }
{
    let rules = rules_of(kind);
    is_within(rules.inputs, ins) && is_within(rules.outputs, outs)
}

/// Refuses a number of ports that the operator doesn't have, at its invocation.
pub(crate) fn ports_checked(op: &Op, invocation: &Invocation) -> Result<(), TypeAnswer>
    ensures { Finds (ports_checked op.now invocation.now) result }
{
    if may_have(op.kind, invocation.inputs.len(), invocation.outputs.len()) {
        Ok(())
    } else {
        Err(refused(CheckError::PortCount, op.at))
    }
}

/// Refuses an entry of `config` other than `placement`.
pub(crate) fn config_checked(alloc: Global, config: &[Parameter]) -> Result<(), TypeAnswer>
    ensures { Finds (config_checked config.now) result }
{
    for entry in config {
        if entry.name.what.as_slice() != b"placement".as_slice() {
            let name = entry.name.what.as_slice();
            return Err(refused_name(alloc, CheckError::LeftOut, entry.name.at, name));
        }
    }
    Ok(())
}

/// A port's name in its body: its alias, or else the name of its first stream.
fn name_of(port: &InputPort) -> &[u8]
    ensures { result.now ≡ port_name port.now }
{
    if let Some(alias) = &port.alias {
        return alias.what.as_slice();
    }
    match port.streams.get(0) {
        Some(name) => name.what.as_slice(),
        None => &[],
    }
}

/// The ports of an invocation with their attributes.
pub(crate) fn ports_of(
    alloc: Global,
    inputs: &Items<InputPort>,
    schemas: Items<Schema>,
) -> Result<Items<Port>, NoMemory>
    ensures { IfOk result (λ ports. ports ≡ named (λ q. port_name q) inputs.now schemas) }
{
    let mut ports = Items::new(alloc);
    for schema in schemas.into_vec() {
        if let Some(input) = inputs.get(ports.len()) {
            let name = Items::from_slice(alloc, name_of(input))?;
            ports.push(Port { name, schema })?;
        }
    }
    Ok(ports)
}

/// The outputs of an invocation by their names, with their attributes.
pub(crate) fn outputs_of(
    alloc: Global,
    outputs: &Items<OutputStream>,
    schemas: Items<Schema>,
) -> Result<Items<Port>, NoMemory>
    ensures { IfOk result (λ ports. ports ≡ named (λ o. o.name.what) outputs.now schemas) }
{
    let mut ports = Items::new(alloc);
    for schema in schemas.into_vec() {
        if let Some(output) = outputs.get(ports.len()) {
            let name = Items::from_slice(alloc, output.name.what.as_slice())?;
            ports.push(Port { name, schema })?;
        }
    }
    Ok(ports)
}
