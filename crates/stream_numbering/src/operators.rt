//! Operators with the numbers of their streams.
ghost use Rattle.std.specs.Prelude.{◌≡◌, ◌+◌, ◌++◌, ◌∷◌, [], map, filter_map, IfOk, OnOk};
ghost use Rattle.language_model.specs.Numbering.{numbers_from, streams_from};
ghost use Rattle.stream_numbering.specs.steps.StreamTable.{stream_in, op_in, ops_in};

use crate::numbering::sum_of;
use language_model::{Operation, Source};
use spl_tree::{Op, Stream};
use spl_value::{Ids, Items, NoMemory};
use std::alloc::Global;

/// The stream that a table has for a source.
pub(crate) fn stream_at(table: &[Items<Option<u32>>], source: Source) -> Option<u32>
    ensures { result ≡ stream_in table.now source }
{
    let row = table.get(source.expansion as usize)?;
    *row.get(source.place as usize)?
}

/// `count` numbers, from `first` on.
fn numbers(alloc: Global, first: u32, count: u32) -> Result<Ids, NoMemory>
    ensures { IfOk result (λ ids. ids ≡ numbers_from first count) }
{
    // Where the end fits, each number does.
    let _end = sum_of(first, count)?;
    let mut ids = Items::with_capacity(alloc, count as usize)?;
    for k in 0..count {
        ids.push(first + k)?;
    }
    Ok(ids)
}

fn add_streams(streams: &mut Items<Stream>, maker: u32, count: u32) -> Result<(), NoMemory>
    ensures { OnOk result (streams.new ≡ streams.old ++ map (λ port. record { maker = maker; port = port }) (numbers_from 0 count)) }
{
    for port in 0..count {
        streams.push(Stream { maker, port })?;
    }
    Ok(())
}

/// The streams of operators, in their order.
pub(crate) fn streams_of(alloc: Global, operations: &[Operation]) -> Result<Items<Stream>, NoMemory>
    ensures { IfOk result (λ streams. streams ≡ streams_from 0 operations.now) }
{
    let mut streams = Items::new(alloc);
    let mut maker = 0;
    for operation in operations {
        add_streams(&mut streams, maker, operation.outputs)?;
        maker = sum_of(maker, 1)?;
    }
    Ok(streams)
}

/// The streams of sources that have one.
fn streams_taken(
    alloc: Global,
    table: &[Items<Option<u32>>],
    sources: &[Source],
) -> Result<Ids, NoMemory>
    ensures { IfOk result (λ ids. ids ≡ filter_map (stream_in table.now) sources.now) }
{
    let mut ids = Items::new(alloc);
    for source in sources {
        if let Some(stream) = stream_at(table, *source) {
            ids.push(stream)?;
        }
    }
    Ok(ids)
}

fn ports_taken(
    alloc: Global,
    table: &[Items<Option<u32>>],
    ports: &[Items<Source>],
) -> Result<Items<Ids>, NoMemory>
    ensures { IfOk result (λ ins. ins ≡ map (filter_map (stream_in table.now)) ports.now) }
{
    let mut ins = Items::new(alloc);
    for port in ports {
        ins.push(streams_taken(alloc, table, port.as_slice())?)?;
    }
    Ok(ins)
}

/// An operator whose first stream has a number.
fn op_of(
    alloc: Global,
    table: &[Items<Option<u32>>],
    first: u32,
    operation: Operation,
) -> Result<Op, NoMemory>
    ensures { IfOk result (λ op. op ≡ op_in table.now first operation) }
{
    let ins = ports_taken(alloc, table, operation.ins.as_slice())?;
    let outs = numbers(alloc, first, operation.outputs)?;
    Ok(Op {
        name: operation.name,
        kind: operation.kind,
        ins,
        outs,
        site: operation.site,
        at: operation.at,
    })
}

/// Adds an operator whose first stream has a number, and answers the number of the stream after its own.
fn add_op(
    alloc: Global,
    table: &[Items<Option<u32>>],
    first: u32,
    operation: Operation,
    ops: &mut Items<Op>,
) -> Result<u32, NoMemory>
    ensures next { IfOk result (λ next. next ≡ first + operation.outputs) }
    ensures added { OnOk result (ops.new ≡ ops.old ++ op_in table.now first operation ∷ []) }
{
    let outputs = operation.outputs;
    let op = op_of(alloc, table, first, operation)?;
    ops.push(op)?;
    sum_of(first, outputs)
}

/// Operators, in their order.
pub(crate) fn ops_of(
    alloc: Global,
    table: &[Items<Option<u32>>],
    operations: Items<Operation>,
) -> Result<Items<Op>, NoMemory>
    ensures { IfOk result (λ ops. ops ≡ ops_in table.now 0 operations) }
{
    let mut ops = Items::with_capacity(alloc, operations.len())?;
    let mut first = 0;
    'operations: for operation in operations.into_vec() {
        first = add_op(alloc, table, first, operation, &mut ops)?;
    }
    Ok(ops)
}
