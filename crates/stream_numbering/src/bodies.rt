//! Bodies with the numbers of the streams that their names mean.
ghost use Rattle.std.specs.Prelude.{◌≡◌, map, filter_map, IfOk};
ghost use Rattle.stream_numbering.specs.steps.StreamTable.{row_in, input_in, expansion_in, expansions_in};

use crate::numbering::sum_of;
use crate::operators::stream_at;
use composite_tables::{Body, Input};
use spl_tree::{Expansion, InputStreams};
use spl_value::{Ids, Items, NoMemory};
use std::alloc::Global;

/// The streams of a row that are there.
fn streams_in(alloc: Global, row: &[Option<u32>]) -> Result<Ids, NoMemory>
    ensures { IfOk result (λ ids. ids ≡ filter_map (λ s. s) row.now) }
{
    let mut ids = Items::new(alloc);
    for stream in row {
        if let Some(stream) = *stream {
            ids.push(stream)?;
        }
    }
    Ok(ids)
}

/// The streams of the names of a body that have one.
fn own_streams(alloc: Global, table: &[Items<Option<u32>>], number: u32) -> Result<Ids, NoMemory>
    ensures { IfOk result (λ ids. ids ≡ filter_map (λ s. s) (row_in table.now number)) }
{
    match table.get(number as usize) {
        Some(row) => streams_in(alloc, row.as_slice()),
        None => Ok(Items::new(alloc)),
    }
}

/// How many streams an input takes, and the first, or 0 where there is none.
fn input_streams(table: &[Items<Option<u32>>], input: Input) -> InputStreams
    ensures { result ≡ input_in table.now input }
{
    let first = match input.first {
        Some(source) => stream_at(table, source).unwrap_or(0),
        None => 0,
    };
    InputStreams {
        count: input.count,
        first,
    }
}

fn inputs_in(
    alloc: Global,
    table: &[Items<Option<u32>>],
    row: &[Input],
) -> Result<Items<InputStreams>, NoMemory>
    ensures { IfOk result (λ inputs. inputs ≡ map (input_in table.now) row.now) }
{
    let mut inputs = Items::with_capacity(alloc, row.len())?;
    for input in row {
        inputs.push(input_streams(table, *input))?;
    }
    Ok(inputs)
}

fn own_inputs(
    alloc: Global,
    table: &[Items<Option<u32>>],
    rows: &[Items<Input>],
    number: u32,
) -> Result<Items<InputStreams>, NoMemory>
    ensures { IfOk result (λ inputs. inputs ≡ map (input_in table.now) (row_in rows.now number)) }
{
    match rows.get(number as usize) {
        Some(row) => inputs_in(alloc, table, row.as_slice()),
        None => Ok(Items::new(alloc)),
    }
}

/// The body of a number, with the rows of the inputs of all.
fn expansion_of(
    alloc: Global,
    table: &[Items<Option<u32>>],
    rows: &[Items<Input>],
    number: u32,
    body: Body,
) -> Result<Expansion, NoMemory>
    ensures { IfOk result (λ e. e ≡ expansion_in table.now rows.now number body) }
{
    let streams = own_streams(alloc, table, number)?;
    let inputs = own_inputs(alloc, table, rows, number)?;
    Ok(Expansion {
        composite: body.composite,
        site: body.site,
        streams,
        inputs,
    })
}

/// Bodies, in their order, with the rows of their inputs.
pub(crate) fn expansions_of(
    alloc: Global,
    table: &[Items<Option<u32>>],
    rows: &[Items<Input>],
    bodies: &[Body],
) -> Result<Items<Expansion>, NoMemory>
    ensures { IfOk result (λ expansions. expansions ≡ expansions_in table.now rows.now 0 bodies.now) }
{
    let mut expansions = Items::with_capacity(alloc, bodies.len())?;
    let mut number = 0;
    for body in bodies {
        expansions.push(expansion_of(alloc, table, rows, number, *body)?)?;
        number = sum_of(number, 1)?;
    }
    Ok(expansions)
}
