//! The streams of operators that are made, their numbers, and the parts of a graph with them.
ghost use Rattle.std.specs.Prelude.{◌≡◌, ◌+◌, IfOk};
ghost use Rattle.language_model.specs.Expansion.{Made};
ghost use Rattle.composite_tables.specs.Inputs.{AreNested, InputsStand, Shows};
ghost use Rattle.stream_numbering.specs.Numbered.{IsNumbered};
ghost use Rattle.stream_numbering.specs.steps.SiteTable.{parts_of, table_of};

use crate::bodies::expansions_of;
use crate::operators::{ops_of, streams_of};
use crate::standing::Standing;
use composite_tables::{Body, Composites, Input};
use language_model::Operation;
use spl_tree::{Expansion, Op, Stream};
use spl_value::{Items, NoMemory};
use std::alloc::Global;

/// What a graph consists of, apart from the order of its operators.
#[derive(Drop)]
pub struct Numbered {
    pub ops: Items<Op>,
    pub streams: Items<Stream>,
    pub expansions: Items<Expansion>,
}

/// A sum. One that is too large to be counted is answered as a lack of memory.
pub(crate) fn sum_of(a: u32, b: u32) -> Result<u32, NoMemory>
    ensures { IfOk result (λ n. n ≡ a + b) }
{
    a.checked_add(b).ok_or(NoMemory)
}

/// For each body the streams of the names of its graph.
fn table_of(
    alloc: Global,
    composites: &Composites<'_>,
    bodies: &[Body],
    operations: &[Operation],
) -> Result<Items<Items<Option<u32>>>, NoMemory>
    ensures { IfOk result (λ table. table ≡ table_of (parts_of composites.now.unit.now bodies.now operations.now)) }
{
    let standing = Standing::new(alloc, composites, bodies, operations)?;
    standing.table(alloc)
}

/// Numbers the streams of the operators of an expansion, whose bodies are given with the rows of their
/// inputs.
pub fn number_streams(
    alloc: Global,
    composites: &Composites<'_>,
    bodies: &[Body],
    inputs: &[Items<Input>],
    operations: Items<Operation>,
) -> Result<Numbered, NoMemory>
    ensures { IfOk result (λ n. (made : Made) → made.ops ≡ operations → Shows composites.now.unit.now bodies.now made.expansions
        → AreNested made.expansions → InputsStand made.expansions inputs.now → IsNumbered made n) }
{
    let table = table_of(alloc, composites, bodies, operations.as_slice())?;
    let streams = streams_of(alloc, operations.as_slice())?;
    let ops = ops_of(alloc, table.as_slice(), operations)?;
    let expansions = expansions_of(alloc, table.as_slice(), inputs, bodies)?;
    Ok(Numbered {
        ops,
        streams,
        expansions,
    })
}
