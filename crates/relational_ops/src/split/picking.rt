//! The index of a Split, and the port that it picks.
ghost use Rattle.std.specs.Prelude.{◌≡◌, ◌≤◌, ◌<◌};
ghost use Rattle.spl_value.specs.declared.value.Value.TheViews.{out-Value};
ghost use Rattle.language_model.specs.Evaluation.{world_of};
ghost use Rattle.language_model.specs.Functions.{value};
ghost use Rattle.stream_model.specs.Bodies.{at_tuple, most_turns, on_picked};
ghost use Rattle.stream_model.specs.Windows.{integer_of};
ghost use Rattle.expr_eval.specs.Fitting.{IsFit};
ghost use Rattle.port_reacts.specs.Bodies.{GoesOn};
ghost use Rattle.port_reacts.specs.Evaluation.{idle};
ghost use Rattle.relational_ops.specs.steps.Judging.{PickedAs};

use expr_eval::eval;
use language_model::{Env, Output, Outs};
use port_reacts::{CheckedOperator, MOST_TURNS, given_none};
use spl_tree::{Code, Slot};
use spl_value::{Evaluated, FaultKind, Item, Value, Values};
use std::alloc::Global;
use stream_model::Reply;

/// The result of an index for a tuple.
#[derive(Drop)]
pub(crate) enum Picked {
    /// The index, and the tuple.
    Index(Value, Values),
    Faulted(FaultKind),
    /// There was no memory.
    Memory,
}

/// The integer of a value, or 0 where it is none.
pub(crate) fn integer_of(value: &Value) -> i128
    ensures { result ≡ integer_of (out-Value value.now) }
{
    match value {
        Value::Int(n) => *n,
        _ => 0,
    }
}

/// The index of a tuple, which comes back. The environment is idle before and after.
pub(crate) fn pick(
    alloc: Global,
    at: &CheckedOperator<'_>,
    index: &Code<Slot>,
    env: &mut Env,
    values: Values,
) -> Picked
    requires fit { IsFit at.now.checked.now.functions index.now (at_tuple values) }
    requires idle { env.old ≡ idle }
    ensures picked { PickedAs (value at.now.checked.now.functions index.now (world_of (at_tuple values)) most_turns) values result }
    ensures idle { env.new ≡ env.old }
{
    if env.inputs.push(values).is_err() {
        return Picked::Memory;
    }
    let mut turns = MOST_TURNS;
    let found = eval(alloc, at.functions(), index, env, &mut turns);
    let Some(values) = env.inputs.pop() else {
        unreachable!()
    };
    match found {
        Evaluated::Value(value) => Picked::Index(value, values),
        Evaluated::Bad(kind) => Picked::Faulted(kind),
        Evaluated::Memory => Picked::Memory,
    }
}

/// An item on the one of `ports` output ports that an index picks: none where the index is negative.
pub(crate) fn given_picked(alloc: Global, ports: usize, index: i128, item: Item) -> Reply
    requires some { 0 < ports }
    requires few { ports ≤ 16 }
    ensures { GoesOn (on_picked ports index item) result }
{
    if index < 0 {
        return given_none(alloc);
    }
    let port = (index % ports as i128) as u32;
    let mut outs = Outs::new(alloc);
    match outs.push(Output { port, item }) {
        Ok(()) => Reply::Out(outs),
        Err(_) => Reply::Memory,
    }
}
