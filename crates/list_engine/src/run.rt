//! The run of a checked graph, operator by operator in topological order.
ghost use Rattle.std.specs.Prelude.{◌≡◌, ◌<◌, ◌∷◌, [], ℕ, List, true, None, Some, IfOk, IfErr, length, map, slice_get, slice_set};
ghost use Rattle.spl_value.specs.declared.item.Item.{Item};
ghost use Rattle.language_model.specs.Keeping.{Keeps};
ghost use Rattle.stream_model.specs.Arrivals.{entries_in, several};
ghost use Rattle.stream_model.specs.CheckedMeaning.{graph_of};
ghost use Rattle.stream_model.specs.Ends.{run_fault};
ghost use Rattle.stream_model.specs.Meaning.{Graph};
ghost use Rattle.list_engine.specs.declared.run_order.Order.{Order};
ghost use Rattle.list_engine.specs.RunOrders.{AreInOrder, StopsRun};
ghost use Rattle.list_engine.specs.Runs.{AreOperators, meant};
ghost use Rattle.stream_model.specs.Runs.{AreWhole, RowsFit, SinksGiven, rows_at};
ghost use Rattle.list_engine.specs.steps.Keeping.{GivesNothing};
ghost use Rattle.list_engine.specs.steps.Running.{Advances, AreLeft, IsOther, IsSource, Ready, StopsAt};

use crate::arrivals::arrival_lists;
use crate::ends::fault_of_run;
use crate::gather::{connections, streams_for, take};
use crate::operator::Given;
use crate::place::{keep, kept_ports};
use crate::replay::take_items;
use crate::run_order::{Order, RunAnswer};
use crate::state::{State, empty_lists};
use language_model::Checked;
use spl_tree::Op;
use spl_value::{Fault, Item, Items, NoMemory};
use std::alloc::Global;
use std::mem::replace;
use stream_model::{Arrivals, React};

/// The result of a run.
#[derive(Drop)]
pub struct Run {
    /// What each operator without output ports gave its writer, by the operator's number. Those with output
    /// ports have an empty list.
    pub sinks: Items<Items<Item>>,
    /// In what order the items came at each operator with several connections.
    pub arrivals: Arrivals,
    /// The fault of the first end, in the order of operators and then of ports, that ended with one.
    pub fault: Option<Fault>,
}

/// What an operator has given before its first event. The inputs of its events are recorded where it has
/// several.
fn none_given(alloc: Global, op: &Op, inputs: usize) -> Result<Given, NoMemory>
    ensures { IfOk result (λ given. GivesNothing op.now.outs inputs given) }
{
    let outs = empty_lists(alloc, kept_ports(op))?;
    let inputs = if inputs > 1 {
        Some(Items::new(alloc))
    } else {
        None
    };
    Ok(Given { outs, inputs })
}

/// Runs the source with this number: its rows are its stream.
fn run_source(
    alloc: Global,
    checked: &Checked,
    number: usize,
    state: &mut State,
) -> Result<(), NoMemory>
    requires number { number < length checked.now.graph.ops }
    requires is_source { IsSource checked.now number }
    requires ready { (order : Order) × (later : List ℕ) × Ready checked.now order number later state.old }
    ensures { IfOk result (λ _. (order : Order) (later : List ℕ) → Advances checked.now order number later state.old state.new) }
{
    let Some(op) = checked.graph.ops.get(number) else {
        unreachable!()
    };
    let items = take(alloc, &mut state.rows, number);
    let mut outs = Items::new(alloc);
    outs.push(items)?;
    keep(op, number, Given { outs, inputs: None }, None, state);
    Ok(())
}

/// Runs an operator with inputs.
fn run_other<R: React>(
    alloc: Global,
    checked: &Checked,
    order: &Order,
    later: &[u32],
    number: u32,
    operator: R,
    state: &mut State,
) -> Result<(), RunAnswer>
    requires number { number < length checked.now.graph.ops }
    requires is_other { IsOther R.spec R.stands checked.now number operator }
    requires ready { Ready checked.now order.now number later.now state.old }
    ensures advances { IfOk result (λ _. Advances checked.now order.now number later.now state.old state.new) }
    ensures stops { IfErr result (StopsAt checked.now order.now number later.now state.old) }
{
    let at = number as usize;
    let Some(op) = checked.graph.ops.get(at) else {
        unreachable!()
    };
    let streams = connections(alloc, op)?;
    let lists = streams_for(
        alloc,
        checked,
        later,
        streams.as_slice(),
        &mut state.streams,
    )?;
    let mut operator = operator;
    let mut given = none_given(alloc, op, lists.len())?;
    let fault = match take_items(alloc, order, number, &mut operator, lists, &mut given) {
        Ok(fault) => fault,
        Err(answer) => return Err(answer),
    };
    keep(op, at, given, fault, state);
    Ok(())
}

/// Takes the operator with this number out of several, where it is no source.
fn take_operator<R: React>(operators: &mut Items<Option<R>>, at: usize) -> Option<R>
    requires { at < length operators.old }
    ensures operator { slice_get operators.old at ≡ Some result }
    ensures others { operators.new ≡ slice_set operators.old at None }
{
    replace(operators.item_mut(at), None)
}

/// Runs the operator with this number. Those with the later numbers are run after it.
fn run_operator<R: React>(
    alloc: Global,
    checked: &Checked,
    order: &Order,
    later: &[u32],
    number: u32,
    operators: &mut Items<Option<R>>,
    state: &mut State,
) -> Result<(), RunAnswer>
    requires kept { Keeps checked.now }
    requires operators { (g : Graph) → graph_of checked.now ≡ g → AreLeft R.spec R.stands g (number ∷ later.now) operators.old }
    requires ready { Ready checked.now order.now number later.now state.old }
    ensures operators { (g : Graph) → graph_of checked.now ≡ g → AreLeft R.spec R.stands g later.now operators.new }
    ensures advances { IfOk result (λ _. Advances checked.now order.now number later.now state.old state.new) }
    ensures stops { IfErr result (StopsAt checked.now order.now number later.now state.old) }
{
    let at = number as usize;
    match take_operator(operators, at) {
        None => {
            run_source(alloc, checked, at, state)?;
            Ok(())
        }
        Some(operator) => run_other(alloc, checked, order, later, number, operator, state),
    }
}

/// Runs a checked graph, from its operators and the rows of each source, by the operators' numbers. An
/// operator with several connections takes the items of its inputs in this order.
///
/// A stream is moved to the last operator that reads it, and copied for the others.
pub fn run_lists<R: React>(
    alloc: Global,
    checked: &Checked,
    operators: Items<Option<R>>,
    rows: Items<Items<Item>>,
    order: &Order,
) -> Result<Run, RunAnswer>
    requires operators { (g : Graph) → graph_of checked.now ≡ g → AreOperators R.spec R.stands g operators }
    requires rows { (g : Graph) → graph_of checked.now ≡ g → RowsFit g rows }
    ensures sinks { IfOk result (λ run. (g : Graph) → graph_of checked.now ≡ g → SinksGiven g (meant g rows run) run.sinks) }
    ensures fault { IfOk result (λ run. (g : Graph) → graph_of checked.now ≡ g → run.fault ≡ run_fault g (meant g rows run)) }
    ensures lists { IfOk result (λ run. (g : Graph) → graph_of checked.now ≡ g → map (λ l. l.op) run.arrivals.lists ≡ several g) }
    ensures whole { IfOk result (λ run. (g : Graph) → graph_of checked.now ≡ g
        → AreWhole g (meant g rows run) (entries_in run.arrivals.lists)) }
    ensures ordered { IfOk result (λ run. (g : Graph) → graph_of checked.now ≡ g
        → AreInOrder order.now g (meant g rows run) (entries_in run.arrivals.lists)) }
    ensures stops { IfErr result (λ answer. (g : Graph) → graph_of checked.now ≡ g → StopsRun answer order.now g (rows_at rows)) }
{
    let mut operators = operators;
    let graph = &checked.graph;
    let mut state = State::new(alloc, graph.ops.len(), graph.streams.len(), rows)?;
    let mut rest = graph.topo.as_slice();
    'operators: while let [number, later @ ..] = rest {
        match run_operator(
            alloc,
            checked,
            order,
            later,
            *number,
            &mut operators,
            &mut state,
        ) {
            Ok(()) => {}
            Err(answer) => return Err(answer),
        }
        rest = later;
    }
    let fault = fault_of_run(checked, &state);
    let lists = arrival_lists(alloc, state.inputs)?;
    Ok(Run {
        sinks: state.sinks,
        arrivals: Arrivals { lists },
        fault,
    })
}
