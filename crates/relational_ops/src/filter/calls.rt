//! The calls of a Filter.
ghost use Rattle.std.specs.Prelude.{◌≡◌, ◌<◌, [], Option, Some, IfOk, length, slice_get};
ghost use Rattle.spl_value.specs.declared.item.Item.TheVariants as I;
ghost use Rattle.spl_tree.specs.declared.code.Code.{Code};
ghost use Rattle.spl_tree.specs.declared.code.Slot.{Slot};
ghost use Rattle.language_model.specs.declared.checked.CheckedClauses.TheVariants as A;
ghost use Rattle.stream_model.specs.Bodies.{at_tuple, filter_body};
ghost use Rattle.stream_model.specs.CheckedMeaning.{graph_of, operator_with};
ghost use Rattle.stream_model.specs.React.{answer};
ghost use Rattle.port_reacts.specs.Bodies.{RepliesTo};
ghost use Rattle.port_reacts.specs.Evaluation.{PassesFit, idle};

use crate::filter::Filter;
use crate::judging::{Judged, judge};
use crate::passing::passed;
use language_model::{Checked, CheckedClauses, Env};
use port_reacts::{CheckedOperator, OnPort, fits_law, given_first, given_none, idle_env};
use spl_tree::{Code, Slot};
use spl_value::{Item, NoMemory, Values};
use std::alloc::Global;
use stream_model::Reply;

/// A tuple passes where the condition holds for it.
fn on_tuple(
    alloc: Global,
    at: &CheckedOperator<'_>,
    condition: &Option<Code<Slot>>,
    env: &mut Env,
    values: Values,
) -> Reply
    requires fit { PassesFit at.now.checked.now.functions condition.now (at_tuple values) }
    requires idle { env.old ≡ idle }
    ensures replies { RepliesTo at.now.number (length at.now.op.now.outs)
        (answer (filter_body at.now.checked.now.functions condition.now (I.Tuple values))) result }
    ensures idle { env.new ≡ env.old }
{
    let Some(condition) = condition else {
        return given_first(alloc, Item::Tuple(values));
    };
    match judge(alloc, at, condition, env, values) {
        Judged::Held(true, values) => given_first(alloc, Item::Tuple(values)),
        Judged::Held(false, _) => given_none(alloc),
        Judged::Faulted(kind) => at.faulted(alloc, kind),
        Judged::Memory => Reply::Memory,
    }
}

impl<'c> OnPort for Filter<'c> {
    ghost spec = { λ s. operator_with s.at.checked.now s.at.number s.at.op.now s.at.part.now };

    ghost stands = { λ s h. (s.at.part.now ≡ A.Filter s.condition.now) × (s.env ≡ idle) };

    fn on_port(&mut self, port: u32, item: Item) -> Reply {
        fits_law();
        let (alloc, at, env) = (self.alloc, &self.at, &mut self.env);
        match item {
            Item::Tuple(values) => on_tuple(alloc, at, self.condition, env, values),
            item => passed(alloc, at, item),
        }
    }
}

impl<'c> Filter<'c> {
    /// The Filter with this number. There is one.
    pub fn new(alloc: Global, checked: &'c Checked, op: u32) -> Result<Filter<'c>, NoMemory>
        requires there { op < length checked.now.graph.ops }
        requires kind { (condition : Option (Code Slot)) × (slice_get checked.now.parts op ≡ Some (A.Filter condition)) }
        ensures is { IfOk result (λ filter. slice_get (graph_of checked.now).ops op ≡ Some (⟦<Filter<'c> as OnPort>⟧.spec filter)) }
        ensures begins { IfOk result (λ filter. ⟦<Filter<'c> as OnPort>⟧.stands filter []) }
    {
        let at = CheckedOperator::new(checked, op);
        let CheckedClauses::Filter { condition } = at.part else {
            unreachable!()
        };
        Ok(Filter {
            alloc,
            at,
            condition,
            env: idle_env(alloc)?,
        })
    }
}
