//! The bodies that a Custom runs for its events.
ghost use Rattle.std.specs.Prelude.{◌≡◌};
ghost use Rattle.std.specs.Option.{option_copied};
ghost use Rattle.spl_value.specs.declared.item.Item.TheVariants as I;
ghost use Rattle.stream_model.specs.Customs.{handler, left_by, marker_env};
ghost use Rattle.stream_model.specs.parts.Customs.{tuple_env};
ghost use Rattle.custom_logic.specs.Idle.{idle_env};
ghost use Rattle.custom_logic.specs.steps.Running.{HandledAs, LeavesIdle, MayRun};

use expr_eval::{Ran, run_body};
use language_model::{Env, Outs};
use port_reacts::MOST_TURNS;
use spl_tree::{Body, Functions, Marker};
use spl_value::{FaultKind, Items, Values};
use std::alloc::Global;

/// The result of the run of a body.
#[derive(Drop)]
pub(crate) enum Handled {
    /// What it submitted.
    Done(Outs),
    Faulted(FaultKind),
    /// There was no memory.
    Memory,
}

/// Runs a body, where there is one.
pub(crate) fn run_handler(
    alloc: Global,
    functions: &Functions,
    body: Option<&Body>,
    env: &mut Env,
) -> Handled
    requires { MayRun functions.now (option_copied body) env.old }
    ensures { HandledAs (left_by functions.now (option_copied body.entry) env.old) result env.old env.new }
{
    let mut submits = Outs::new(alloc);
    let Some(body) = body else {
        return Handled::Done(submits);
    };
    let mut turns = MOST_TURNS;
    match run_body(alloc, functions, body, env, &mut turns, &mut submits) {
        Ran::Done => Handled::Done(submits),
        Ran::Bad(kind) => Handled::Faulted(kind),
        Ran::Memory => Handled::Memory,
    }
}

/// The body of a port, where it has one.
pub(crate) fn handler(bodies: &Items<Option<Body>>, port: u32) -> Option<&Body>
    ensures { option_copied result ≡ handler bodies.now port }
{
    match bodies.get(port as usize) {
        Some(Some(body)) => Some(body),
        _ => None,
    }
}
