//! The sources of a checked graph, in the order of the operators.
ghost use Rattle.std.specs.Prelude.{◌≡◌, ◌<◌, ◌-◌, ◌^◌, ◌∷◌, ℕ, List, Some, IfSome, slice_get};
ghost use Rattle.feed_pour.specs.Contents.{WhereTold, TellsSame};
ghost use Rattle.language_model.specs.Files.{source_files};
ghost use Rattle.language_model.specs.Keeping.{Keeps};
ghost use Rattle.language_model.specs.StreamTypes.{Attributes};
ghost use Rattle.stream_model.specs.CheckedMeaning.{operator_with};
ghost use Rattle.source_rows.specs.Counting.{Grows};
ghost use Rattle.source_rows.specs.Sources.{ReadsFail, SourcesCounted, SourcesOf};
ghost use Rattle.source_rows.specs.steps.Steps.{IsNotOpened, SourceCounted, SourceOf};

use crate::file::{FileRows, read_file};
use feed_pour::Shelf;
use language_model::{Checked, CheckedClauses};
use spl_tree::Op;
use spl_value::{Item, Items, Name, Schema};
use std::alloc::Global;

/// The result of reading the file of an operator.
#[derive(Drop)]
pub(crate) enum OneSource {
    /// Its rows. An operator that is no source has none.
    Rows(Items<Item>),
    /// It is the file of this name, and couldn't be opened.
    OpenFailed(Name),
    Memory,
}

/// The result of reading the sources of a run.
#[derive(Drop)]
pub enum Sources {
    /// The rows of each operator, by its number. An operator that is no source has none.
    Rows(Items<Items<Item>>),
    /// The file of this name couldn't be opened.
    OpenFailed(Name),
    Memory,
}

// A source whose file couldn't be opened.
fn not_opened(alloc: Global, file: &Name) -> OneSource
    ensures { IsNotOpened result file.now }
{
    match Items::from_slice(alloc, file.as_slice()) {
        Ok(name) => OneSource::OpenFailed(name),
        Err(_) => OneSource::Memory,
    }
}

// The attributes of the first stream that an operator makes.
fn first_schema<'c>(checked: &'c Checked, op: &Op) -> &'c Schema
    requires { (s : ℕ) × (streams : List ℕ) × (schema : Attributes) × (op.now.outs ≡ s ∷ streams) × (slice_get checked.now.schemas s ≡ Some schema) }
    ensures { (s : ℕ) (streams : List ℕ) → op.now.outs ≡ s ∷ streams
        → slice_get checked.now.schemas s ≡ Some result.now }
{
    let [stream, ..] = op.outs.as_slice() else {
        unreachable!()
    };
    let Some(schema) = checked.schemas.get(*stream as usize) else {
        unreachable!()
    };
    schema
}

// Reads the file of an operator, where it is a source.
fn read_source<H: Shelf>(
    alloc: Global,
    shelf: &mut H,
    checked: &Checked,
    number: u32,
    op: &Op,
    part: &CheckedClauses,
) -> OneSource
    requires kept { Keeps checked.now }
    requires there { slice_get checked.now.graph.ops number ≡ Some op.now }
    requires has { slice_get checked.now.parts number ≡ Some part.now }
    ensures made { SourceOf result part.now (operator_with checked.now number op.now part.now)
        (H.told shelf.old) (H.counts shelf.old) (H.counts shelf.new) }
    ensures told { WhereTold (H.told shelf.old) (H.told shelf.new) TellsSame }
    ensures reads { IfSome (H.told shelf.old) (ReadsFail (H.counts shelf.old) (H.counts shelf.new)) }
    ensures grows { Grows (H.counts shelf.old) (H.counts shelf.new) }
    ensures cause { SourceCounted result part.now (H.counts shelf.old) (H.counts shelf.new) }
    ensures lent { H.lent shelf.old < 2 ^ 64 - 1 → H.lent shelf.new ≡ H.lent shelf.old }
{
    let CheckedClauses::FileSource { file, strict } = part else {
        return OneSource::Rows(Items::new(alloc));
    };
    let schema = first_schema(checked, op);
    match read_file(alloc, shelf, file, schema, *strict, number) {
        FileRows::Rows(items) => OneSource::Rows(items),
        FileRows::OpenFailed => not_opened(alloc, file),
        FileRows::Memory => OneSource::Memory,
    }
}

/// Reads the rows of the sources' files, in the order of the operators, up to the first file that can't be
/// opened. A read that fails, a bad row and what is too long are items of a source's rows.
pub fn read_sources<H: Shelf>(alloc: Global, shelf: &mut H, checked: &Checked) -> Sources
    ensures made { SourcesOf result checked.now (H.told shelf.old) (H.counts shelf.old) (H.counts shelf.new) }
    ensures told { WhereTold (H.told shelf.old) (H.told shelf.new) TellsSame }
    ensures reads { IfSome (H.told shelf.old) (ReadsFail (H.counts shelf.old) (H.counts shelf.new)) }
    ensures cause { SourcesCounted result (source_files checked.now.parts) (H.counts shelf.old)
        (H.counts shelf.new) }
    ensures lent { H.lent shelf.old < 2 ^ 64 - 1 → H.lent shelf.new ≡ H.lent shelf.old }
{
    let mut rows = Items::new(alloc);
    'operators: for number in 0..checked.parts.len() {
        let (Some(op), Some(part)) = (checked.graph.ops.get(number), checked.parts.get(number))
        else {
            unreachable!()
        };
        match read_source(alloc, shelf, checked, number as u32, op, part) {
            OneSource::Rows(items) => {
                if rows.push(items).is_err() {
                    return Sources::Memory;
                }
            }
            OneSource::OpenFailed(name) => return Sources::OpenFailed(name),
            OneSource::Memory => return Sources::Memory,
        }
    }
    Sources::Rows(rows)
}
