//! The files that a run creates, and what is counted of its sinks.
ghost use Rattle.std.specs.Prelude.{◌≡◌, ℕ, List, IfOk, Some, slice_get};
ghost use Rattle.arrival_format.specs.ArrivalTexts.{arrivals_text};
ghost use Rattle.file_adapters.specs.Sinks.{names_of};
ghost use Rattle.spl_driver.specs.steps.Steps.{counts_from, last_of, sinks_of};

use arrival_format::arrivals_text;
use file_adapters::{Sink, TextFile};
use language_model::{Checked, CheckedClauses};
use spl_value::{Items, Name, NoMemory};
use std::alloc::Global;
use stream_model::{Arrivals, SinkCount};

/// The files that a run creates: those of its sinks, and that of its record, with the record's text, where
/// one is written.
#[derive(Drop)]
pub struct RunFiles {
    pub sinks: Items<Sink>,
    pub last: Option<TextFile>,
}

// The sinks of a graph, in the order of the operators: each writes what the operator with its number
// gives.
fn sinks_of(alloc: Global, checked: &Checked) -> Result<Items<Sink>, NoMemory>
    ensures sinks { IfOk result (λ sinks. sinks ≡ sinks_of checked.now) }
{
    let mut sinks = Items::new(alloc);
    let mut parts = checked.parts.as_slice();
    let mut op = 0u32;
    'operators: while let [part, behind @ ..] = parts {
        if let CheckedClauses::FileSink { file } = part {
            let file = Items::from_slice(alloc, file.as_slice())?;
            sinks.push(Sink { file, stream: op })?;
        }
        op += 1;
        parts = behind;
    }
    Ok(sinks)
}

// The file that the record is written into, where there is one, with the record's text.
fn last_of(
    alloc: Global,
    checked: &Checked,
    written: &Option<Name>,
    arrivals: &Arrivals,
) -> Result<Option<TextFile>, NoMemory>
    ensures { IfOk result
        (λ last. last ≡ last_of written.now (arrivals_text checked.now arrivals.now)) }
{
    let Some(name) = written else {
        return Ok(None);
    };
    let file = Items::from_slice(alloc, name.as_slice())?;
    let text = arrivals_text(alloc, checked, arrivals)?;
    Ok(Some(TextFile { file, text }))
}

/// The files that the run of a graph creates which has this record, to be written where a file is named for it.
pub fn files_of_run(
    alloc: Global,
    checked: &Checked,
    written: &Option<Name>,
    arrivals: &Arrivals,
) -> Result<RunFiles, NoMemory>
    ensures sinks { IfOk result (λ files. files.sinks ≡ sinks_of checked.now) }
    ensures last { IfOk result
        (λ files. files.last ≡ last_of written.now (arrivals_text checked.now arrivals.now)) }
{
    match (
        sinks_of(alloc, checked),
        last_of(alloc, checked, written, arrivals),
    ) {
        (Ok(sinks), Ok(last)) => Ok(RunFiles { sinks, last }),
        _ => Err(NoMemory),
    }
}

/// The name of the file at a place.
pub fn name_at(files: &RunFiles, place: usize) -> &[u8]
    ensures { (name : List ℕ) → slice_get (names_of files.now.sinks files.now.last) place ≡ Some name
        → result.now ≡ name }
{
    match (files.sinks.get(place), &files.last) {
        (Some(sink), _) => sink.file.as_slice(),
        (None, Some(text)) => text.file.as_slice(),
        (None, None) => &[],
    }
}

/// The counts of the sinks of a graph, by the number of rows that each wrote.
pub fn sink_counts(
    alloc: Global,
    checked: &Checked,
    rows: &Items<u64>,
) -> Result<Items<SinkCount>, NoMemory>
    ensures { IfOk result (λ counts. counts ≡ counts_from 0 checked.now.parts rows.now) }
{
    let mut counts = Items::new(alloc);
    let mut left = rows.as_slice();
    let mut rest = checked.parts.as_slice();
    let mut op = 0u32;
    'operators: while let [part, behind @ ..] = rest {
        if let CheckedClauses::FileSink { .. } = part {
            let [tuples, more @ ..] = left else {
                return Ok(counts);
            };
            counts.push(SinkCount {
                op,
                tuples: *tuples,
            })?;
            left = more;
        }
        op += 1;
        rest = behind;
    }
    Ok(counts)
}
