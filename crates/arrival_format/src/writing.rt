//! A record's text.
ghost use Rattle.std.specs.Prelude.{◌≡◌, ◌++◌, IfOk, OnOk};
ghost use Rattle.arrival_format.specs.ArrivalTexts.{name_at, inputs_text, line_text, arrivals_text};

use itoa::Buffer;
use language_model::Checked;
use spl_value::{Bytes, Items, NoMemory};
use std::alloc::Global;
use stream_model::{ArrivalList, Arrivals};

// The name of the operator with this number; nothing where there is no such operator.
fn name(checked: &Checked, op: u32) -> &[u8]
    ensures { result.now ≡ name_at checked.now op }
{
    match checked.graph.ops.get(op as usize) {
        Some(op) => op.name.as_slice(),
        None => &[],
    }
}

// Adds the numbers, each after a blank.
fn add_inputs(text: &mut Vec<u8>, inputs: &[u32]) -> Result<(), NoMemory>
    ensures { OnOk result (text.new.items ≡ text.old.items ++ inputs_text inputs.now) }
{
    let mut digits = Buffer::new();
    for input in inputs {
        text.push(b' ')?;
        text.extend_from_slice(digits.format(*input).as_bytes())?;
    }
    Ok(())
}

// Adds the line of an operator's list.
fn add_line(text: &mut Vec<u8>, checked: &Checked, list: &ArrivalList) -> Result<(), NoMemory>
    ensures { OnOk result (text.new.items ≡ text.old.items ++ line_text checked.now list.now) }
{
    text.extend_from_slice(name(checked, list.op))?;
    add_inputs(text, list.inputs.as_slice())?;
    text.push(b'\n')?;
    Ok(())
}

/// The text of an arrival record. The name of an operator that the graph doesn't have is empty.
pub fn arrivals_text(
    alloc: Global,
    checked: &Checked,
    arrivals: &Arrivals,
) -> Result<Bytes, NoMemory>
    ensures { IfOk result (λ text. text ≡ arrivals_text checked.now arrivals.now) }
{
    let mut text = Vec::new(alloc);
    text.extend_from_slice(b"arrivals 1\n")?;
    for list in arrivals.lists.as_slice() {
        add_line(&mut text, checked, list)?;
    }
    Ok(Items::from_vec(text))
}
