//! A run of a checked graph, from its sources to its sinks.
ghost use Rattle.std.specs.Prelude.{◌≡◌, ◌<◌, ◌-◌, ◌^◌, true, ℕ, List, IfOk, map};
ghost use Rattle.feed_pour.specs.Contents.{WhereTold};
ghost use Rattle.language_model.specs.Files.{OwnFiles};
ghost use Rattle.file_adapters.specs.Sinks.{names_of};
ghost use Rattle.spl_driver.specs.Answer.{cause_of, uncounted};
ghost use Rattle.spl_driver.specs.Texts.{run_text};
ghost use Rattle.spl_driver.specs.steps.Telling.{IsText};
ghost use Rattle.spl_driver.specs.steps.Steps.{CountsShow, EndsAs, EndsRun, FilesShow, FollowsOrder, IsNamedBy, IsOrderOf, IsRunOf, IsUntaken, MayEndIn, RanGraph, ReasonOf, RecordOf, RunComes, TellsRun, counts_from, run_files, untaken};
ghost use Rattle.run_report.specs.Texts.{status_text};

use crate::answer::{Answer, bad_arrivals, plain_answer};
use crate::ended::{Ended, open_failed, status, uncounted_after, write_failed};
use crate::prepare::{Prepared, kept, prepare};
use crate::sinks::{RunFiles, files_of_run, name_at, sink_counts};
use feed_pour::Shelf;
use file_adapters::{Sunk, write_sinks};
use language_model::Checked;
use list_engine::{Order, Run, engine_law};
use run_report::{Cause, counts_text, status_text};
use spl_value::{Bytes, Fault, Items, Name, NoMemory};
use std::alloc::Global;
use std::mem::replace;
use stream_model::{ArrivalList, Arrivals, Counts};

// How a run ends that has this fault, or none.
fn cause(fault: Option<Fault>) -> Cause
    ensures { result ≡ cause_of fault }
{
    match fault {
        None => Cause::Done,
        Some(fault) => Cause::Stopped(fault),
    }
}

// The answer of a cause that names no operator, after a run with this record of which nothing was counted.
fn unfinished(alloc: Global, cause: Cause, arrivals: Arrivals) -> Answer
    ensures cause { result.ended.cause ≡ cause }
    ensures text { IfOk result.text (λ text. text ≡ status_text None cause) }
    ensures recorded { result.ended.arrivals ≡ arrivals }
    ensures counts { result.ended.counts ≡ uncounted }
{
    let text = status_text(alloc, None, &cause);
    Answer {
        ended: uncounted_after(alloc, cause, arrivals),
        text,
    }
}

// Empties each list of a record.
fn empty_lists(lists: &mut [ArrivalList])
    ensures { lists.new ≡ map untaken lists.old }
{
    for list in lists.iter_mut() {
        list.inputs.clear();
    }
}

// The record of which nothing was taken. It takes no memory.
fn untaken(alloc: Global, mut arrivals: Arrivals) -> Arrivals
    ensures { IsUntaken arrivals result }
{
    let mut lists = replace(&mut arrivals.lists, Items::new(alloc)).into_vec();
    empty_lists(&mut lists);
    Arrivals {
        lists: Items::from_vec(lists),
    }
}

// What is told of a run that was carried out: its counts, where they are asked for, and how it ended.
fn run_text(
    alloc: Global,
    counted: bool,
    checked: &Checked,
    counts: &Counts,
    cause: &Cause,
) -> Result<Bytes, NoMemory>
    ensures { IfOk result (λ text. text ≡ run_text counted checked.now counts.now cause.now) }
{
    let status = status_text(alloc, Some(checked), cause)?;
    if !counted {
        return Ok(status);
    }
    let mut text = counts_text(alloc, checked, counts)?;
    text.append(status)?;
    Ok(text)
}

// The end of a run that was carried out.
fn finished(
    alloc: Global,
    counted: bool,
    checked: &Checked,
    rows: &Items<u64>,
    fault: Option<Fault>,
    arrivals: Arrivals,
) -> Answer
    ensures ends { EndsAs fault (counts_from 0 checked.now.parts rows.now) result.ended }
    ensures text { IfOk result.text (TellsRun counted checked.now result.ended) }
    ensures recorded { result.ended.arrivals ≡ arrivals }
{
    match sink_counts(alloc, checked, rows) {
        Err(_) => unfinished(alloc, Cause::NoMemory, arrivals),
        Ok(sinks) => {
            let cause = cause(fault);
            let counts = Counts {
                channels: Items::new(alloc),
                sinks,
            };
            let text = run_text(alloc, counted, checked, &counts, &cause);
            Answer {
                ended: Ended {
                    status: status(&cause),
                    cause,
                    arrivals,
                    counts,
                },
                text,
            }
        }
    }
}

// The answer of a run, by what became of the files that it created.
fn ended_run(
    alloc: Global,
    counted: bool,
    checked: &Checked,
    files: &RunFiles,
    fault: Option<Fault>,
    arrivals: Arrivals,
    sunk: &Sunk,
) -> Answer
    ensures { EndsRun sunk.now counted checked.now (names_of files.now.sinks files.now.last) fault
        arrivals result }
{
    match sunk {
        Sunk::NotCreated(place) => {
            let cause = open_failed(alloc, name_at(files, *place));
            unfinished(alloc, cause, untaken(alloc, arrivals))
        }
        Sunk::NotWritten(place) => {
            unfinished(alloc, write_failed(alloc, name_at(files, *place)), arrivals)
        }
        Sunk::Memory => unfinished(alloc, Cause::NoMemory, arrivals),
        Sunk::Done(rows) => finished(alloc, counted, checked, rows, fault, arrivals),
    }
}

/// Runs a checked graph in this order: reads its sources, and writes its sinks, and then the record of its
/// arrivals into the file of this name, where there is one. Its counts are told where `counted` asks for them.
pub fn run<H: Shelf>(
    alloc: Global,
    shelf: &mut H,
    checked: &Checked,
    order: &Order,
    written: &Option<Name>,
    counted: bool,
) -> Answer
    requires order { IsOrderOf checked.now order.now }
    requires own { (names : List (List ℕ)) × OwnFiles names checked.now.parts
        × IsNamedBy written.now names }
    ensures files { WhereTold (H.told shelf.old) (H.told shelf.new)
        (λ old new. FilesShow (IsRunOf checked.now order.now result.ended.arrivals old)
        (run_files written.now checked.now) result.ended (H.counts shelf.old) (H.counts shelf.new) old new) }
    ensures recorded { WhereTold (H.told shelf.old) (H.told shelf.new)
        (RecordOf written.now checked.now result.ended (H.counts shelf.old) (H.counts shelf.new)) }
    ensures counts { CountsShow result.ended.cause checked.now.parts (run_files written.now checked.now)
        (H.counts shelf.old) (H.counts shelf.new) }
    ensures text { IfOk result.text (IsText counted result.ended.cause
        (RunComes checked.now order.now result.ended.arrivals (H.told shelf.old) (H.counts shelf.old) (H.counts shelf.new))) }
    ensures kinds { MayEndIn order.now result.ended.cause }
    ensures followed { WhereTold (H.told shelf.old) (H.told shelf.new)
        (FollowsOrder order.now checked.now result.ended) }
    ensures reason { ReasonOf result.ended.cause checked.now }
    ensures ran { RanGraph result.ended.cause checked.now result.ended (H.counts shelf.old) (H.counts shelf.new) }
    ensures lent { H.lent shelf.old < 2 ^ 64 - 257 → H.lent shelf.new ≡ H.lent shelf.old }
{
    engine_law();
    kept(checked);
    match prepare(alloc, shelf, checked, order) {
        Prepared::OpenFailed(name) => plain_answer(alloc, Cause::OpenFailed(name)),
        Prepared::NotWhole(op) => bad_arrivals(alloc, checked, Some(op)),
        Prepared::Memory => plain_answer(alloc, Cause::NoMemory),
        Prepared::Ran(run) => match files_of_run(alloc, checked, written, &run.arrivals) {
            Err(_) => plain_answer(alloc, Cause::NoMemory),
            Ok(files) => {
                let Run {
                    sinks: streams,
                    arrivals,
                    fault,
                } = run;
                let sunk = write_sinks(alloc, shelf, &files.sinks, &streams, &files.last);
                ended_run(alloc, counted, checked, &files, fault, arrivals, &sunk)
            }
        },
    }
}
