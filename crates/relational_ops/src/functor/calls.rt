//! The calls of a Functor.
ghost use Rattle.std.specs.Prelude.{◌≡◌, ◌<◌, [], Option, Some, IfOk, length, slice_get};
ghost use Rattle.spl_value.specs.declared.item.Item.TheVariants as I;
ghost use Rattle.spl_tree.specs.declared.code.Code.{Code};
ghost use Rattle.spl_tree.specs.declared.code.Slot.{Slot};
ghost use Rattle.language_model.specs.declared.checked.CheckedClauses.TheVariants as A;
ghost use Rattle.stream_model.specs.Bodies.{at_tuple, functor_body};
ghost use Rattle.stream_model.specs.CheckedMeaning.{graph_of, operator_with};
ghost use Rattle.stream_model.specs.React.{answer};
ghost use Rattle.expr_eval.specs.Moving.{MovesFit};
ghost use Rattle.port_reacts.specs.Bodies.{RepliesTo};
ghost use Rattle.port_reacts.specs.Evaluation.{idle};
ghost use Rattle.relational_ops.specs.Fitting.{MakingFits};

use crate::functor::making::{Mapped, map_tuple};
use crate::functor::moves::moves_of;
use crate::functor::{Clauses, Functor};
use crate::passing::passed;
use language_model::{Checked, CheckedClauses, Env};
use port_reacts::{CheckedOperator, OnPort, fits_law, given_first, given_none, idle_env};
use spl_value::{Item, NoMemory, Values};
use std::alloc::Global;
use stream_model::Reply;

/// A tuple is made of one where the condition holds for it.
fn on_tuple(
    alloc: Global,
    at: &CheckedOperator<'_>,
    clauses: &Clauses<'_>,
    env: &mut Env,
    values: Values,
) -> Reply
    requires fit { MakingFits at.now.checked.now.functions clauses.now.condition.now clauses.now.output.now (at_tuple values) }
    requires moves { MovesFit clauses.now.output.now clauses.now.moves }
    requires idle { env.old ≡ idle }
    ensures replies { RepliesTo at.now.number (length at.now.op.now.outs)
        (answer (functor_body at.now.checked.now.functions clauses.now.condition.now clauses.now.output.now (I.Tuple values))) result }
    ensures idle { env.new ≡ env.old }
{
    if env.inputs.push(values).is_err() {
        return Reply::Memory;
    }
    let mapped = map_tuple(alloc, at, clauses, env);
    env.inputs.clear();
    match mapped {
        Mapped::To(values) => given_first(alloc, Item::Tuple(values)),
        Mapped::Dropped => given_none(alloc),
        Mapped::Faulted(kind) => at.faulted(alloc, kind),
        Mapped::Memory => Reply::Memory,
    }
}

impl<'c> OnPort for Functor<'c> {
    ghost spec = { λ s. operator_with s.at.checked.now s.at.number s.at.op.now s.at.part.now };

    ghost stands = { λ s h. (s.at.part.now ≡ A.Functor s.clauses.condition.now s.clauses.output.now) × (s.env ≡ idle) × MovesFit s.clauses.output.now s.clauses.moves };

    fn on_port(&mut self, port: u32, item: Item) -> Reply {
        fits_law();
        let (alloc, at, env) = (self.alloc, &self.at, &mut self.env);
        match item {
            Item::Tuple(values) => on_tuple(alloc, at, &self.clauses, env, values),
            item => passed(alloc, at, item),
        }
    }
}

impl<'c> Functor<'c> {
    /// The Functor with this number. There is one.
    pub fn new(alloc: Global, checked: &'c Checked, op: u32) -> Result<Functor<'c>, NoMemory>
        requires there { op < length checked.now.graph.ops }
        requires kind { (condition : Option (Code Slot)) × (output : Code Slot) × (slice_get checked.now.parts op ≡ Some (A.Functor condition output)) }
        ensures is { IfOk result (λ functor. slice_get (graph_of checked.now).ops op ≡ Some (⟦<Functor<'c> as OnPort>⟧.spec functor)) }
        ensures begins { IfOk result (λ functor. ⟦<Functor<'c> as OnPort>⟧.stands functor []) }
    {
        let at = CheckedOperator::new(checked, op);
        let CheckedClauses::Functor { condition, output } = at.part else {
            unreachable!()
        };
        Ok(Functor {
            alloc,
            at,
            clauses: Clauses {
                condition,
                output,
                moves: moves_of(alloc, output)?,
            },
            env: idle_env(alloc)?,
        })
    }
}
