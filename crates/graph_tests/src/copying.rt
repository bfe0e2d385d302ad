//! A run of the worked graph.
ghost use Rattle.std.specs.Prelude.{◌≡◌, None, Some, [], ◌∷◌, true, IsTrue, IfOk};
ghost use Rattle.stream_model.specs.Stream.{is_closed, TuplesFit};
ghost use Rattle.stream_model.specs.examples.CheckedGraphs.{texts};
ghost use Rattle.stream_model.specs.CheckedMeaning.{graph_of};
ghost use Rattle.stream_model.specs.Meaning.{Graph};
ghost use Rattle.list_engine.specs.Runs.{meant};
ghost use Rattle.stream_model.specs.Runs.{SinksGiven};
ghost use Rattle.graph_tests.specs.Copying.{copying};

use crate::writer::Writer;
use language_model::Checked;
use list_engine::{Order, Run, RunAnswer, run_lists};
use spl_value::{Item, Items};
use std::alloc::Global;

/// Runs the worked graph on the rows of its source: its sink gives them to its writer, in whatever order.
pub fn copied(
    alloc: Global,
    checked: &Checked,
    rows: Items<Item>,
    order: &Order,
) -> Result<Run, RunAnswer>
    requires graph { checked.now ≡ copying }
    requires closed { is_closed rows ≡ true }
    requires fit { TuplesFit texts rows }
    ensures sinks { IfOk result (λ run. (g : Graph) → graph_of copying ≡ g
        → SinksGiven g (meant g (rows ∷ [] ∷ []) run) run.sinks) }
{
    let mut operators = Items::new(alloc);
    operators.push(None)?;
    operators.push(Some(Writer { alloc }))?;
    let mut all = Items::new(alloc);
    all.push(rows)?;
    all.push(Items::new(alloc))?;
    run_lists(alloc, checked, operators, all, order)
}
