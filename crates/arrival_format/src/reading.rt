//! The record that a text spells.
ghost use Rattle.std.specs.Prelude.{◌≡◌, ◌<◌, ◌^◌, ◌+◌, ℕ, List, Err, IfOk, Some, length, slice_get, sum_by};
ghost use Rattle.std.specs.List.{concat};
ghost use Rattle.stream_model.specs.declared.record.ArrivalList.{ArrivalList};
ghost use Rattle.stream_model.specs.declared.record.Arrivals.{Arrivals};
ghost use Rattle.arrival_format.specs.declared.answer.ArrivalsAnswer.TheVariants as A;
ghost use Rattle.arrival_format.specs.ArrivalTexts.{Reads};
ghost use Rattle.arrival_format.specs.steps.Steps.{AreLines, AreReadUpTo, IsLine};

use crate::answer::ArrivalsAnswer;
use crate::numbers::read_inputs;
use language_model::Checked;
use spl_tree::Op;
use spl_value::{Inputs, Items};
use std::alloc::Global;
use stream_model::{ArrivalList, ArrivalLists, Arrivals};

// The first line of each text.
const HEAD: &[u8] = b"arrivals 1\n";

// How many connections an operator has.
fn connection_count(op: &Op) -> u32
    requires few { sum_by length op.now.ins < 2 ^ 30 }
    ensures { result ≡ length (concat op.now.ins) }
{
    let mut count = 0u32;
    for port in op.ins.as_slice() {
        count += port.len() as u32;
    }
    count
}

// The numbers of the line that begins with a name, each below the bound, and what comes after the line.
fn read_line<'a>(
    alloc: Global,
    name: &[u8],
    bound: u32,
    bytes: &'a [u8],
) -> Result<(Inputs, &'a [u8]), ArrivalsAnswer>
    ensures read { IfOk result (λ found. IsLine name.now bound bytes.now found.0 found.1.now) }
    ensures bad { result ≡ Err A.Bad
        → (inputs rest : List ℕ) → IsLine name.now bound bytes.now inputs rest → ⊥ }
{
    match bytes.strip_prefix(name) {
        Some(numbers) => read_inputs(alloc, numbers, bound),
        None => Err(ArrivalsAnswer::Bad),
    }
}

// Reads the line of the operator with this number, where it has several connections, and answers what
// comes after it.
fn read_operator<'a>(
    alloc: Global,
    checked: &Checked,
    number: u32,
    lists: &mut ArrivalLists,
    bytes: &'a [u8],
) -> Result<&'a [u8], ArrivalsAnswer>
    requires { number < length checked.now.graph.ops }
    ensures read { IfOk result (λ rest. (all : List ℕ)
        → AreReadUpTo checked.now number all lists.old bytes.now
        → AreReadUpTo checked.now (number + 1) all lists.new rest.now) }
    ensures bad { result ≡ Err A.Bad → (all : List ℕ)
        → AreReadUpTo checked.now number all lists.old bytes.now
        → (whole : List ArrivalList) → AreLines checked.now all whole → ⊥ }
{
    let Some(op) = checked.graph.ops.get(number as usize) else {
        unreachable!()
    };
    let bound = connection_count(op);
    if bound < 2 {
        return Ok(bytes);
    }
    match read_line(alloc, op.name.as_slice(), bound, bytes) {
        Ok((inputs, rest)) => {
            lists.push(ArrivalList { op: number, inputs })?;
            Ok(rest)
        }
        Err(answer) => Err(answer),
    }
}

// The record whose lines these are.
fn read_lines(alloc: Global, checked: &Checked, bytes: &[u8]) -> Result<Arrivals, ArrivalsAnswer>
    ensures read { IfOk result (λ arrivals. AreLines checked.now bytes.now arrivals.lists) }
    ensures bad { result ≡ Err A.Bad
        → (lists : List ArrivalList) → AreLines checked.now bytes.now lists → ⊥ }
{
    let mut lists = Items::new(alloc);
    let mut rest = bytes;
    for number in 0..checked.graph.ops.len() as u32 {
        rest = read_operator(alloc, checked, number, &mut lists, rest)?;
    }
    if rest.is_empty() {
        Ok(Arrivals { lists })
    } else {
        Err(ArrivalsAnswer::Bad)
    }
}

/// The arrival record that the bytes spell. They are read once, from the first to the last.
pub fn read_arrivals(
    alloc: Global,
    checked: &Checked,
    bytes: &[u8],
) -> Result<Arrivals, ArrivalsAnswer>
    ensures { Reads checked.now bytes.now result }
{
    if bytes.len() > 0x1_0000_0000 {
        return Err(ArrivalsAnswer::Bad);
    }
    match bytes.strip_prefix(HEAD) {
        Some(lines) => read_lines(alloc, checked, lines),
        None => Err(ArrivalsAnswer::Bad),
    }
}
