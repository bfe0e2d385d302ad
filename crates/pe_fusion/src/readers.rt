//! Who reads each stream.
ghost use Rattle.std.specs.Prelude.{◌≡◌, ◌<◌, ◌+◌, ◌^◌, [], ℕ, IfOk, OnOk, length, replicate};
ghost use Rattle.std.specs.List.{concat, Contains};
ghost use Rattle.language_model.specs.Keeping.{Keeps};
ghost use Rattle.stream_model.specs.CheckedMeaning.{graph_of};
ghost use Rattle.pe_fusion.specs.Readers.{readers as readers_of_stream};
ghost use Rattle.pe_fusion.specs.steps.Reading.{add_operators, add_reads, read_by};

use language_model::Checked;
use spl_value::{Ids, Items, NoMemory};
use std::alloc::Global;

/// The connections of each stream, by its number: operators and their inputs.
pub(crate) type Readers = Items<Items<(u32, u32)>>;

/// No connections of so many streams.
fn unread(alloc: Global, streams: usize) -> Result<Readers, NoMemory>
    ensures { IfOk result (λ readers. readers ≡ replicate streams []) }
{
    let mut readers = Items::with_capacity(alloc, streams)?;
    'streams: for _ in 0..streams {
        readers.push(Items::new(alloc))?;
    }
    Ok(readers)
}

/// Adds the connections of an operator to the streams of a port, whose inputs begin with `first`. Gives the
/// input behind them.
fn add_port(readers: &mut Readers, op: u32, first: u32, port: &[u32]) -> Result<u32, NoMemory>
    requires within { (s : ℕ) → Contains port.now s → s < length readers.old }
    requires few { first + length port.now < 2 ^ 32 }
    ensures readers { OnOk result (readers.new ≡ add_reads readers.old op first port.now) }
    ensures next { IfOk result (λ next. next ≡ first + length port.now) }
{
    let mut input = first;
    for stream in port {
        readers.item_mut(*stream as usize).push((op, input))?;
        input += 1;
    }
    Ok(input)
}

/// Adds the connections of an operator.
fn add_operator(readers: &mut Readers, op: u32, ins: &[Ids]) -> Result<(), NoMemory>
    requires within { (s : ℕ) → Contains (concat ins.now) s → s < length readers.old }
    requires few { length (concat ins.now) < 2 ^ 32 }
    ensures { OnOk result (readers.new ≡ add_reads readers.old op 0 (concat ins.now)) }
{
    let mut input = 0;
    for port in ins {
        input = add_port(readers, op, input, port.as_slice())?;
    }
    Ok(())
}

/// The connections of each stream, by operator and then by input.
pub(crate) fn readers(alloc: Global, checked: &Checked) -> Result<Readers, NoMemory>
    ensures table { IfOk result (λ readers. readers
        ≡ add_operators (replicate (length checked.now.graph.streams) []) 0 checked.now.graph.ops) }
    ensures streams { IfOk result (λ readers. (s : ℕ) → read_by readers s ≡ readers_of_stream (graph_of checked.now) s) }
    ensures few { IfOk result (λ readers. (s : ℕ) → length (read_by readers s) < 2 ^ 32) }
{
    let mut readers = unread(alloc, checked.graph.streams.len())?;
    let mut number = 0;
    for op in checked.graph.ops.as_slice() {
        add_operator(&mut readers, number, op.ins.as_slice())?;
        number += 1;
    }
    Ok(readers)
}
