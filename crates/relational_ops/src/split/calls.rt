//! The calls of a Split.
ghost use Rattle.std.specs.Prelude.{◌≡◌, ◌<◌, [], Some, IfOk, length, slice_get};
ghost use Rattle.spl_value.specs.declared.item.Item.TheVariants as I;
ghost use Rattle.spl_tree.specs.declared.code.Code.{Code};
ghost use Rattle.spl_tree.specs.declared.code.Slot.{Slot};
ghost use Rattle.language_model.specs.declared.checked.CheckedClauses.TheVariants as A;
ghost use Rattle.stream_model.specs.Bodies.{at_tuple, on_each, split_body};
ghost use Rattle.stream_model.specs.CheckedMeaning.{graph_of, operator_with};
ghost use Rattle.stream_model.specs.React.{answer};
ghost use Rattle.expr_eval.specs.Fitting.{IsFit};
ghost use Rattle.port_reacts.specs.Bodies.{GoesOn, RepliesTo, RepliesToItem};
ghost use Rattle.port_reacts.specs.Evaluation.{idle};
ghost use Rattle.relational_ops.specs.Fitting.{WhereTuple};

use crate::split::Split;
use crate::split::picking::{Picked, given_picked, integer_of, pick};
use language_model::{Checked, CheckedClauses, Env};
use port_reacts::{CheckedOperator, OnPort, fits_law, given_none, idle_env, on_each_port};
use spl_tree::{Code, Slot};
use spl_value::{Item, NoMemory, Values};
use std::alloc::Global;
use stream_model::Reply;

/// A tuple goes to the port that the index picks.
fn on_tuple(
    alloc: Global,
    at: &CheckedOperator<'_>,
    index: &Code<Slot>,
    env: &mut Env,
    values: Values,
) -> Reply
    requires fit { IsFit at.now.checked.now.functions index.now (at_tuple values) }
    requires some { 0 < length at.now.op.now.outs }
    requires idle { env.old ≡ idle }
    ensures replies { RepliesTo at.now.number (length at.now.op.now.outs)
        (answer (split_body at.now.checked.now.functions index.now (length at.now.op.now.outs) (I.Tuple values))) result }
    ensures idle { env.new ≡ env.old }
{
    match pick(alloc, at, index, env, values) {
        Picked::Index(index, values) => {
            let index = integer_of(&index);
            given_picked(alloc, at.op.outs.len(), index, Item::Tuple(values))
        }
        Picked::Faulted(kind) => at.faulted(alloc, kind),
        Picked::Memory => Reply::Memory,
    }
}

/// A window marker on each output port.
fn given_markers(alloc: Global, at: &CheckedOperator<'_>) -> Reply
    ensures { GoesOn (on_each (length at.now.op.now.outs) I.Window) result }
{
    match on_each_port(alloc, at.op.outs.len(), &Item::Window) {
        Ok(outs) => Reply::Out(outs),
        Err(_) => Reply::Memory,
    }
}

/// What an item causes.
fn on_item(
    alloc: Global,
    at: &CheckedOperator<'_>,
    index: &Code<Slot>,
    env: &mut Env,
    item: Item,
) -> Reply
    requires fit { WhereTuple (λ vs. IsFit at.now.checked.now.functions index.now (at_tuple vs)) item }
    requires some { 0 < length at.now.op.now.outs }
    requires idle { env.old ≡ idle }
    ensures replies { RepliesToItem at.now.number (length at.now.op.now.outs)
        (answer (split_body at.now.checked.now.functions index.now (length at.now.op.now.outs) item)) item result }
    ensures idle { env.new ≡ env.old }
{
    match item {
        Item::Tuple(values) => on_tuple(alloc, at, index, env, values),
        Item::Window => given_markers(alloc, at),
        Item::Final => given_none(alloc),
        Item::Bad(fault) => at.ended_by(alloc, fault),
    }
}

impl<'c> OnPort for Split<'c> {
    ghost spec = { λ s. operator_with s.at.checked.now s.at.number s.at.op.now s.at.part.now };

    ghost stands = { λ s h. (s.at.part.now ≡ A.Split s.index.now) × (s.env ≡ idle) };

    fn on_port(&mut self, port: u32, item: Item) -> Reply {
        fits_law();
        on_item(self.alloc, &self.at, self.index, &mut self.env, item)
    }
}

impl<'c> Split<'c> {
    /// The Split with this number. There is one.
    pub fn new(alloc: Global, checked: &'c Checked, op: u32) -> Result<Split<'c>, NoMemory>
        requires there { op < length checked.now.graph.ops }
        requires kind { (index : Code Slot) × (slice_get checked.now.parts op ≡ Some (A.Split index)) }
        ensures is { IfOk result (λ split. slice_get (graph_of checked.now).ops op ≡ Some (⟦<Split<'c> as OnPort>⟧.spec split)) }
        ensures begins { IfOk result (λ split. ⟦<Split<'c> as OnPort>⟧.stands split []) }
    {
        let at = CheckedOperator::new(checked, op);
        let CheckedClauses::Split { index } = at.part else {
            unreachable!()
        };
        Ok(Split {
            alloc,
            at,
            index,
            env: idle_env(alloc)?,
        })
    }
}
