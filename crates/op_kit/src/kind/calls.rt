//! The calls of operators by their kinds.
ghost use Rattle.std.specs.Prelude.{◌≡◌, ◌<◌, [], IfOk, IsTrue, Ok, Some, length, slice_get};
ghost use Rattle.language_model.specs.declared.checked.CheckedClauses.{CheckedClauses};
ghost use Rattle.stream_model.specs.CheckedMeaning.{graph_of};
ghost use Rattle.stream_model.specs.Operators.{Operator};
ghost use Rattle.stream_model.specs.Stream.{Event};
ghost use Rattle.op_kit.specs.Kinds.{is_held};
ghost use Rattle.op_kit.specs.declared.kind.Kind.TheVariants as K;

use crate::kind::Kind;
use crate::sink::Sink;
use aggregate_op::Aggregate;
use custom_logic::Custom;
use join_op::Join;
use language_model::{Checked, CheckedClauses};
use port_reacts::OnPort;
use relational_ops::{Filter, Functor, Punctor, Split};
use spl_value::{Item, NoMemory};
use std::alloc::Global;
use stream_model::Reply;
use union_op::Union;

impl<'c> OnPort for Kind<'c> {
    ghost spec = { λ kind. elim kind as (λ k. Operator) [
      | K.Sink s ↦ ⟦<Sink<'c> as OnPort>⟧.spec s.value
      | K.Filter s ↦ ⟦<Filter<'c> as OnPort>⟧.spec s.value
      | K.Functor s ↦ ⟦<Functor<'c> as OnPort>⟧.spec s.value
      | K.Punctor s ↦ ⟦<Punctor<'c> as OnPort>⟧.spec s.value
      | K.Split s ↦ ⟦<Split<'c> as OnPort>⟧.spec s.value
      | K.Union s ↦ ⟦<Union<'c> as OnPort>⟧.spec s.value
      | K.Custom s ↦ ⟦<Custom<'c> as OnPort>⟧.spec s.value
      | K.Aggregate s ↦ ⟦<Aggregate<'c> as OnPort>⟧.spec s.value
      | K.Join s ↦ ⟦<Join<'c> as OnPort>⟧.spec s.value
    ] };

    ghost stands = { λ kind h. elim kind as (λ k. Type 0) [
      | K.Sink s ↦ ⟦<Sink<'c> as OnPort>⟧.stands s.value h
      | K.Filter s ↦ ⟦<Filter<'c> as OnPort>⟧.stands s.value h
      | K.Functor s ↦ ⟦<Functor<'c> as OnPort>⟧.stands s.value h
      | K.Punctor s ↦ ⟦<Punctor<'c> as OnPort>⟧.stands s.value h
      | K.Split s ↦ ⟦<Split<'c> as OnPort>⟧.stands s.value h
      | K.Union s ↦ ⟦<Union<'c> as OnPort>⟧.stands s.value h
      | K.Custom s ↦ ⟦<Custom<'c> as OnPort>⟧.stands s.value h
      | K.Aggregate s ↦ ⟦<Aggregate<'c> as OnPort>⟧.stands s.value h
      | K.Join s ↦ ⟦<Join<'c> as OnPort>⟧.stands s.value h
    ] };

    fn on_port(&mut self, port: u32, item: Item) -> Reply {
        match self {
            Kind::Sink(sink) => sink.on_port(port, item),
            Kind::Filter(filter) => filter.on_port(port, item),
            Kind::Functor(functor) => functor.on_port(port, item),
            Kind::Punctor(punctor) => punctor.on_port(port, item),
            Kind::Split(split) => split.on_port(port, item),
            Kind::Union(union) => union.on_port(port, item),
            Kind::Custom(custom) => custom.on_port(port, item),
            Kind::Aggregate(aggregate) => aggregate.on_port(port, item),
            Kind::Join(join) => join.on_port(port, item),
        }
    }
}

/// What is made, in a box.
fn boxed<T: Drop>(alloc: Global, made: Result<T, NoMemory>) -> Result<Box<T>, NoMemory>
    ensures { IfOk result (λ b. made ≡ Ok b.value) }
{
    Ok(Box::new(alloc, made?)?)
}

impl<'c> Kind<'c> {
    /// The operator with this number. There is one, of one of the kinds.
    pub(crate) fn new(alloc: Global, checked: &'c Checked, op: u32) -> Result<Kind<'c>, NoMemory>
        requires there { op < length checked.now.graph.ops }
        requires kind { (part : CheckedClauses) → slice_get checked.now.parts op ≡ Some part → IsTrue (is_held part) }
        ensures is { IfOk result (λ kind. slice_get (graph_of checked.now).ops op ≡ Some (⟦<Kind<'c> as OnPort>⟧.spec kind)) }
        ensures begins { IfOk result (λ kind. ⟦<Kind<'c> as OnPort>⟧.stands kind []) }
    {
        let Some(part) = checked.parts.get(op as usize) else {
            unreachable!()
        };
        match part {
            CheckedClauses::FileSink { .. } => {
                let made = Ok(Sink::new(alloc, checked, op));
                Ok(Kind::Sink(boxed(alloc, made)?))
            }
            CheckedClauses::Filter { .. } => {
                Ok(Kind::Filter(boxed(alloc, Filter::new(alloc, checked, op))?))
            }
            CheckedClauses::Functor { .. } => {
                Ok(Kind::Functor(boxed(alloc, Functor::new(alloc, checked, op))?))
            }
            CheckedClauses::Punctor { .. } => {
                Ok(Kind::Punctor(boxed(alloc, Punctor::new(alloc, checked, op))?))
            }
            CheckedClauses::Split { .. } => {
                Ok(Kind::Split(boxed(alloc, Split::new(alloc, checked, op))?))
            }
            CheckedClauses::Union { .. } => {
                Ok(Kind::Union(boxed(alloc, Union::new(alloc, checked, op))?))
            }
            CheckedClauses::Custom { .. } => {
                Ok(Kind::Custom(boxed(alloc, Custom::new(alloc, checked, op))?))
            }
            CheckedClauses::Aggregate { .. } => {
                Ok(Kind::Aggregate(boxed(alloc, Aggregate::new(alloc, checked, op))?))
            }
            CheckedClauses::Join { .. } => {
                Ok(Kind::Join(boxed(alloc, Join::new(alloc, checked, op))?))
            }
            CheckedClauses::FileSource { .. } => unreachable!(),
        }
    }
}
