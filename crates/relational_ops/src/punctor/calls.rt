//! The calls of a Punctor.
ghost use Rattle.std.specs.Prelude.{◌≡◌, ◌<◌, ◌++◌, [], Some, IfOk, length, slice_get};
ghost use Rattle.spl_value.specs.declared.item.Item.TheVariants as I;
ghost use Rattle.spl_value.specs.declared.types.SplType.TheVariants as T;
ghost use Rattle.spl_tree.specs.declared.code.Code.{Code};
ghost use Rattle.spl_tree.specs.declared.code.Slot.{Slot};
ghost use Rattle.language_model.specs.declared.checked.CheckedClauses.TheVariants as A;
ghost use Rattle.language_model.specs.declared.checked.Position.{Position};
ghost use Rattle.language_model.specs.WorldFits.{Fits};
ghost use Rattle.stream_model.specs.Bodies.{at_tuple, on_first, punctor_body, with_marker};
ghost use Rattle.stream_model.specs.CheckedMeaning.{graph_of, operator_with};
ghost use Rattle.stream_model.specs.React.{answer};
ghost use Rattle.port_reacts.specs.Bodies.{GoesOn, RepliesTo};
ghost use Rattle.port_reacts.specs.Evaluation.{idle};

use crate::judging::{Judged, judge};
use crate::passing::passed;
use crate::punctor::Punctor;
use language_model::{Checked, CheckedClauses, Env, Outs, Position};
use port_reacts::{CheckedOperator, OnPort, fits_law, give_first, given_first, idle_env};
use spl_tree::{Code, Slot};
use spl_value::{Item, NoMemory, Values};
use std::alloc::Global;
use stream_model::Reply;

/// Two items on the first output port.
fn given_both(alloc: Global, first: Item, second: Item) -> Result<Outs, NoMemory>
    ensures { IfOk result (λ outs. outs ≡ on_first first ++ on_first second) }
{
    let mut outs = Outs::new(alloc);
    give_first(&mut outs, first)?;
    give_first(&mut outs, second)?;
    Ok(outs)
}

/// A tuple with a window marker beside it.
fn given_marked(alloc: Global, position: Position, values: Values) -> Reply
    ensures { GoesOn (with_marker position values) result }
{
    let given = match position {
        Position::Before => given_both(alloc, Item::Window, Item::Tuple(values)),
        Position::After => given_both(alloc, Item::Tuple(values), Item::Window),
    };
    match given {
        Ok(outs) => Reply::Out(outs),
        Err(_) => Reply::Memory,
    }
}

/// A tuple gets its marker where the condition holds for it.
fn on_tuple(
    alloc: Global,
    at: &CheckedOperator<'_>,
    condition: &Code<Slot>,
    position: Position,
    env: &mut Env,
    values: Values,
) -> Reply
    requires fit { Fits at.now.checked.now.functions condition.now (at_tuple values) T.Bool }
    requires idle { env.old ≡ idle }
    ensures replies { RepliesTo at.now.number (length at.now.op.now.outs)
        (answer (punctor_body at.now.checked.now.functions condition.now position (I.Tuple values))) result }
    ensures idle { env.new ≡ env.old }
{
    match judge(alloc, at, condition, env, values) {
        Judged::Held(true, values) => given_marked(alloc, position, values),
        Judged::Held(false, values) => given_first(alloc, Item::Tuple(values)),
        Judged::Faulted(kind) => at.faulted(alloc, kind),
        Judged::Memory => Reply::Memory,
    }
}

impl<'c> OnPort for Punctor<'c> {
    ghost spec = { λ s. operator_with s.at.checked.now s.at.number s.at.op.now s.at.part.now };

    ghost stands = { λ s h. (s.at.part.now ≡ A.Punctor s.condition.now s.position) × (s.env ≡ idle) };

    fn on_port(&mut self, port: u32, item: Item) -> Reply {
        fits_law();
        let (alloc, at, env) = (self.alloc, &self.at, &mut self.env);
        match item {
            Item::Tuple(values) => on_tuple(alloc, at, self.condition, self.position, env, values),
            item => passed(alloc, at, item),
        }
    }
}

impl<'c> Punctor<'c> {
    /// The Punctor with this number. There is one.
    pub fn new(alloc: Global, checked: &'c Checked, op: u32) -> Result<Punctor<'c>, NoMemory>
        requires there { op < length checked.now.graph.ops }
        requires kind { (condition : Code Slot) × (position : Position) × (slice_get checked.now.parts op ≡ Some (A.Punctor condition position)) }
        ensures is { IfOk result (λ punctor. slice_get (graph_of checked.now).ops op ≡ Some (⟦<Punctor<'c> as OnPort>⟧.spec punctor)) }
        ensures begins { IfOk result (λ punctor. ⟦<Punctor<'c> as OnPort>⟧.stands punctor []) }
    {
        let at = CheckedOperator::new(checked, op);
        let CheckedClauses::Punctor {
            condition,
            position,
        } = at.part
        else {
            unreachable!()
        };
        Ok(Punctor {
            alloc,
            at,
            condition,
            position: *position,
            env: idle_env(alloc)?,
        })
    }
}
