//! A run from its rows.
ghost use Rattle.std.specs.Prelude.{◌≡◌, IfOk, IfErr, map};
ghost use Rattle.stream_model.specs.Arrivals.{several, entries_in};
ghost use Rattle.stream_model.specs.CheckedMeaning.{graph_of};
ghost use Rattle.stream_model.specs.Ends.{run_fault};
ghost use Rattle.stream_model.specs.Meaning.{Graph};
ghost use Rattle.list_engine.specs.RunOrders.{AreInOrder, StopsRun};
ghost use Rattle.list_engine.specs.Runs.{meant};
ghost use Rattle.stream_model.specs.Runs.{AreWhole, RowsFit, SinksGiven, rows_at};

use crate::operators::operators_of;
use language_model::Checked;
use list_engine::{Order, Run, RunAnswer, run_lists};
use spl_value::{Item, Items};
use std::alloc::Global;

/// Runs a checked graph from the rows of its sources. An operator with several connections takes the items
/// of its inputs in this order.
pub fn run_graph(
    alloc: Global,
    checked: &Checked,
    rows: Items<Items<Item>>,
    order: &Order,
) -> Result<Run, RunAnswer>
    requires rows { (g : Graph) → graph_of checked.now ≡ g → RowsFit g rows }
    ensures sinks { IfOk result (λ run. (g : Graph) → graph_of checked.now ≡ g
        → SinksGiven g (meant g rows run) run.sinks) }
    ensures fault { IfOk result (λ run. (g : Graph) → graph_of checked.now ≡ g
        → run.fault ≡ run_fault g (meant g rows run)) }
    ensures lists { IfOk result (λ run. (g : Graph) → graph_of checked.now ≡ g
        → map (λ l. l.op) run.arrivals.lists ≡ several g) }
    ensures whole { IfOk result (λ run. (g : Graph) → graph_of checked.now ≡ g
        → AreWhole g (meant g rows run) (entries_in run.arrivals.lists)) }
    ensures ordered { IfOk result (λ run. (g : Graph) → graph_of checked.now ≡ g
        → AreInOrder order.now g (meant g rows run) (entries_in run.arrivals.lists)) }
    ensures stops { IfErr result (λ answer. (g : Graph) → graph_of checked.now ≡ g
        → StopsRun answer order.now g (rows_at rows)) }
{
    let operators = operators_of(alloc, checked)?;
    run_lists(alloc, checked, operators, rows, order)
}
