//! The calls of an Aggregate.
ghost use Rattle.std.specs.Prelude.{◌≡◌, ◌<◌, ◌^◌, ℕ, [], List, Some, IfOk, length, slice_get};
ghost use Rattle.language_model.specs.declared.checked.CollectedAttribute.{CollectedAttribute};
ghost use Rattle.language_model.specs.declared.checked.CheckedClauses.TheVariants as A;
ghost use Rattle.language_model.specs.declared.checked.Policy.{Policy as AnyPolicy};
ghost use Rattle.stream_model.specs.CheckedMeaning.{first_schema, graph_of, operator_with, schema_at};
ghost use Rattle.stream_model.specs.Operators.{input_attributes};
ghost use Rattle.port_reacts.specs.Evaluation.{idle};
ghost use Rattle.aggregate_op.specs.Kept.{KeptStands, WindowFits};
ghost use Rattle.aggregate_op.specs.Standing.{AggregateStands, operator_of};

use crate::aggregate::Aggregate;
use crate::aggregate::events::on_item;
use crate::clauses::Clauses;
use crate::kept::kept_of;
use language_model::{Checked, CheckedClauses};
use port_reacts::{CheckedOperator, OnPort, fits_law, idle_env};
use spl_value::{Inputs, Item, NoMemory};
use std::alloc::Global;
use stream_model::Reply;

impl<'c> OnPort for Aggregate<'c> {
    ghost spec = { λ s. operator_of s.clauses };

    ghost stands = { λ s h. AggregateStands s.clauses s.kept s.env h };

    fn on_port(&mut self, port: u32, item: Item) -> Reply {
        fits_law();
        on_item(
            self.alloc,
            &self.clauses,
            &mut self.env,
            &mut self.kept,
            item,
        )
    }
}

/// How many attributes a stream has.
fn stream_width(checked: &Checked, stream: u32) -> usize
    ensures is { result ≡ length (schema_at checked.now stream) }
    ensures small { result < 2 ^ 63 }
{
    match checked.schemas.get(stream as usize) {
        Some(schema) => schema.as_slice().len(),
        None => 0,
    }
}

/// How many attributes the streams of a port have.
fn port_width(checked: &Checked, streams: &Inputs) -> usize
    ensures is { result ≡ length (first_schema checked.now streams.now) }
    ensures small { result < 2 ^ 63 }
{
    match streams.get(0) {
        Some(stream) => stream_width(checked, *stream),
        None => 0,
    }
}

/// How many attributes the first port of an operator has.
fn input_width(at: &CheckedOperator<'_>) -> usize
    ensures is { result ≡ length (input_attributes (operator_with at.now.checked.now at.now.number at.now.op.now at.now.part.now) 0) }
    ensures small { result < 2 ^ 63 }
{
    match at.op.ins.get(0) {
        Some(streams) => port_width(at.checked, streams),
        None => 0,
    }
}

/// An Aggregate of these clauses, before anything came.
fn begun<'c>(alloc: Global, clauses: Clauses<'c>) -> Result<Aggregate<'c>, NoMemory>
    requires { WindowFits clauses }
    ensures clauses { IfOk result (λ aggregate. aggregate.clauses ≡ clauses.entry) }
    ensures stands { IfOk result (λ aggregate. KeptStands clauses.entry clauses.entry.window.now.rule aggregate.kept []) }
    ensures idle { IfOk result (λ aggregate. aggregate.env ≡ idle) }
{
    let env = idle_env(alloc)?;
    let kept = kept_of(alloc, &clauses)?;
    Ok(Aggregate {
        alloc,
        clauses,
        kept,
        env,
    })
}

impl<'c> Aggregate<'c> {
    /// The Aggregate with this number. There is one.
    pub fn new(alloc: Global, checked: &'c Checked, op: u32) -> Result<Aggregate<'c>, NoMemory>
        requires there { op < length checked.now.graph.ops }
        requires kind { (window : AnyPolicy) × (partition group : List ℕ) × (output : List CollectedAttribute)
            × (slice_get checked.now.parts op ≡ Some (A.Aggregate window partition group output)) }
        ensures is { IfOk result (λ aggregate. slice_get (graph_of checked.now).ops op ≡ Some (⟦<Aggregate<'c> as OnPort>⟧.spec aggregate)) }
        ensures begins { IfOk result (λ aggregate. ⟦<Aggregate<'c> as OnPort>⟧.stands aggregate []) }
    {
        let at = CheckedOperator::new(checked, op);
        let CheckedClauses::Aggregate {
            window,
            partition,
            group,
            output,
        } = at.part
        else {
            unreachable!()
        };
        let width = input_width(&at);
        let clauses = Clauses {
            at,
            window,
            partition,
            group,
            output,
            width,
        };
        begun(alloc, clauses)
    }
}
