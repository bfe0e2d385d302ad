//! The calls of a Custom.
ghost use Rattle.std.specs.Prelude.{◌≡◌, ◌<◌, [], Some, IfOk, length, slice_get};
ghost use Rattle.spl_value.specs.declared.item.Item.TheVariants as I;
ghost use Rattle.language_model.specs.declared.checked.Handlers.{Handlers};
ghost use Rattle.language_model.specs.declared.checked.CheckedClauses.TheVariants as A;
ghost use Rattle.language_model.specs.Outcomes.{Done, followed};
ghost use Rattle.stream_model.specs.CheckedMeaning.{graph_of, operator_with};
ghost use Rattle.stream_model.specs.Customs.{handler, item_leaves, left_by, marker_env};
ghost use Rattle.stream_model.specs.parts.Customs.{tuple_env};
ghost use Rattle.stream_model.specs.React.{answer};
ghost use Rattle.port_reacts.specs.Bodies.{RepliesTo, RepliesToItem};
ghost use Rattle.custom_logic.specs.Idle.{idle_env};
ghost use Rattle.custom_logic.specs.Standing.{StandsFor};
ghost use Rattle.custom_logic.specs.steps.Running.{HandledAs, LeavesIdle, MayRun, MayRunOn, RepliesAs};

use crate::custom::Custom;
use crate::custom::first::first_values;
use crate::custom::running::{Handled, handler, run_handler};
use evaluation_laws::{evaluation_law, slots_law};
use language_model::{Checked, CheckedClauses, Env, Handlers};
use port_reacts::{CheckedOperator, OnPort, fits_law};
use spl_tree::{Functions, Marker};
use spl_value::{Item, Items, NoMemory, Values};
use std::alloc::Global;
use stream_model::Reply;

/// The result of a run, as the operator replies it.
fn replied(alloc: Global, at: &CheckedOperator<'_>, handled: Handled) -> Reply
    ensures { RepliesAs at.now.number (length at.now.op.now.outs) handled result }
{
    match handled {
        Handled::Done(submits) => Reply::Out(submits),
        Handled::Faulted(kind) => at.faulted(alloc, kind),
        Handled::Memory => Reply::Memory,
    }
}

/// A tuple on a port.
fn on_tuple(
    alloc: Global,
    functions: &Functions,
    handlers: &Handlers,
    env: &mut Env,
    port: u32,
    values: Values,
) -> Handled
    requires fit { MayRun functions.now (handler handlers.now.on_tuple port) (tuple_env env.old.vars values) }
    requires idle { env.old ≡ idle_env env.old.vars }
    ensures { HandledAs (left_by functions.now (handler handlers.now.on_tuple port) (tuple_env env.old.vars values)) result env.old env.new }
{
    if env.inputs.push(values).is_err() {
        return Handled::Memory;
    }
    let body = handler(&handlers.on_tuple, port);
    let handled = run_handler(alloc, functions, body, env);
    env.inputs.clear();
    handled
}

/// A marker on a port.
fn on_marker(
    alloc: Global,
    functions: &Functions,
    handlers: &Handlers,
    env: &mut Env,
    port: u32,
    marker: Marker,
) -> Handled
    requires fit { MayRun functions.now (handler handlers.now.on_punct port) (marker_env env.old.vars marker) }
    requires idle { env.old ≡ idle_env env.old.vars }
    ensures { HandledAs (left_by functions.now (handler handlers.now.on_punct port) (marker_env env.old.vars marker)) result env.old env.new }
{
    env.punct = Some(marker);
    let body = handler(&handlers.on_punct, port);
    let handled = run_handler(alloc, functions, body, env);
    env.punct = None;
    handled
}

/// What an item causes.
fn on_item(
    alloc: Global,
    at: &CheckedOperator<'_>,
    functions: &Functions,
    handlers: &Handlers,
    env: &mut Env,
    port: u32,
    item: Item,
) -> Reply
    requires fit { MayRunOn functions.now handlers.now env.old.vars port item }
    requires idle { env.old ≡ idle_env env.old.vars }
    ensures replies { RepliesToItem at.now.number (length at.now.op.now.outs)
        (answer (followed (item_leaves functions.now handlers.now env.old.vars port item) (λ left turns. Done left.submits turns))) item result }
    ensures leaves { LeavesIdle (item_leaves functions.now handlers.now env.old.vars port item) result env.new }
{
    let handled = match item {
        Item::Tuple(values) => on_tuple(alloc, functions, handlers, env, port, values),
        Item::Window => on_marker(alloc, functions, handlers, env, port, Marker::Window),
        Item::Final => on_marker(alloc, functions, handlers, env, port, Marker::Final),
        Item::Bad(fault) => return at.ended_by(alloc, fault),
    };
    replied(alloc, at, handled)
}

impl<'c> OnPort for Custom<'c> {
    ghost spec = { λ s. operator_with s.at.checked.now s.at.number s.at.op.now s.at.part.now };

    ghost stands = { λ s h. (s.at.part.now ≡ A.Custom s.handlers.now)
        × StandsFor (operator_with s.at.checked.now s.at.number s.at.op.now s.at.part.now) s.handlers.now h s.env };

    fn on_port(&mut self, port: u32, item: Item) -> Reply {
        fits_law();
        evaluation_law();
        slots_law();
        let checked = self.at.checked;
        on_item(
            self.alloc,
            &self.at,
            &checked.functions,
            self.handlers,
            &mut self.env,
            port,
            item,
        )
    }
}

impl<'c> Custom<'c> {
    /// The Custom with this number, with the first values of its state. There is one.
    pub fn new(alloc: Global, checked: &'c Checked, op: u32) -> Result<Custom<'c>, NoMemory>
        requires there { op < length checked.now.graph.ops }
        requires kind { (handlers : Handlers) × (slice_get checked.now.parts op ≡ Some (A.Custom handlers)) }
        ensures is { IfOk result (λ custom. slice_get (graph_of checked.now).ops op ≡ Some (⟦<Custom<'c> as OnPort>⟧.spec custom)) }
        ensures begins { IfOk result (λ custom. ⟦<Custom<'c> as OnPort>⟧.stands custom []) }
    {
        let at = CheckedOperator::new(checked, op);
        let CheckedClauses::Custom { handlers } = at.part else {
            unreachable!()
        };
        let env = Env {
            inputs: Items::with_capacity(alloc, 1)?,
            vars: first_values(alloc, &handlers.state)?,
            punct: None,
        };
        Ok(Custom {
            alloc,
            at,
            handlers,
            env,
        })
    }
}
