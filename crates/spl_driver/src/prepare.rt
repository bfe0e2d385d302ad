//! A run up to its sinks: the sources read, and the graph run.
ghost use Rattle.std.specs.Prelude.{◌≡◌, ◌<◌, ◌-◌, ◌^◌, true, IfSome, None};
ghost use Rattle.feed_pour.specs.Contents.{WhereTold, TellsSame};
ghost use Rattle.language_model.specs.Keeping.{Keeps};
ghost use Rattle.source_rows.specs.Sources.{ReadsFail};
ghost use Rattle.spl_driver.specs.steps.Steps.{IsOrderOf, PreparedCounted, PreparedOf, run_files};

use fault_laws::run_faults_law;
use feed_pour::Shelf;
use language_model::Checked;
use list_engine::{Order, Run, RunAnswer, engine_law};
use op_kit::run_graph;
use source_rows::{Sources, read_sources};
use spl_value::Name;
use std::alloc::Global;

/// The result of a run up to its sinks.
#[derive(Drop)]
pub enum Prepared {
    /// What it gives its sinks, its fault and its record.
    Ran(Run),
    /// The record isn't whole for this operator, the first such in topological order.
    NotWhole(u32),
    /// The source's file of this name couldn't be opened.
    OpenFailed(Name),
    Memory,
}

/// What a checked graph keeps.
pub(crate) fn kept(checked: &Checked)
    ensures { Keeps checked.now }
{
    let _parts = checked.parts.as_slice();
}

/// Reads the sources of a checked graph, and runs it from their rows in this order.
pub fn prepare<H: Shelf>(alloc: Global, shelf: &mut H, checked: &Checked, order: &Order) -> Prepared
    requires order { IsOrderOf checked.now order.now }
    ensures made { PreparedOf result checked.now order.now (H.told shelf.old)
        (H.counts shelf.old) (H.counts shelf.new) }
    ensures told { WhereTold (H.told shelf.old) (H.told shelf.new) TellsSame }
    ensures reads { IfSome (H.told shelf.old) (ReadsFail (H.counts shelf.old) (H.counts shelf.new)) }
    ensures cause { PreparedCounted result (run_files None checked.now) (H.counts shelf.old)
        (H.counts shelf.new) }
    ensures lent { H.lent shelf.old < 2 ^ 64 - 1 → H.lent shelf.new ≡ H.lent shelf.old }
{
    engine_law();
    run_faults_law();
    kept(checked);
    match read_sources(alloc, shelf, checked) {
        Sources::OpenFailed(name) => Prepared::OpenFailed(name),
        Sources::Memory => Prepared::Memory,
        Sources::Rows(rows) => match run_graph(alloc, checked, rows, order) {
            Err(RunAnswer::Memory) => Prepared::Memory,
            Err(RunAnswer::NotWhole(op)) => Prepared::NotWhole(op),
            Ok(run) => Prepared::Ran(run),
        },
    }
}
