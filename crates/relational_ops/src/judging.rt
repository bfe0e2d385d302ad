//! Conditions on the tuples that come on an operator's one input port.
ghost use Rattle.std.specs.Prelude.{◌≡◌};
ghost use Rattle.spl_value.specs.declared.types.SplType.TheVariants as T;
ghost use Rattle.language_model.specs.WorldFits.{Fits};
ghost use Rattle.stream_model.specs.Bodies.{at_tuple, holds, most_turns};
ghost use Rattle.port_reacts.specs.Evaluation.{idle};
ghost use Rattle.relational_ops.specs.steps.Judging.{JudgedAs};

use expr_eval::{Truth, holds};
use language_model::Env;
use port_reacts::{CheckedOperator, MOST_TURNS};
use spl_tree::{Code, Slot};
use spl_value::{FaultKind, Values};
use std::alloc::Global;

/// The result of a condition for a tuple.
#[derive(Drop)]
pub(crate) enum Judged {
    /// Whether it holds, and the tuple.
    Held(bool, Values),
    Faulted(FaultKind),
    /// There was no memory.
    Memory,
}

/// Whether a condition holds for a tuple, which comes back. The environment is idle before and after.
#[inline(always)]
pub(crate) fn judge(
    alloc: Global,
    at: &CheckedOperator<'_>,
    condition: &Code<Slot>,
    env: &mut Env,
    values: Values,
) -> Judged
    requires fit { Fits at.now.checked.now.functions condition.now (at_tuple values) T.Bool }
    requires idle { env.old ≡ idle }
    ensures judged { JudgedAs (holds at.now.checked.now.functions condition.now (at_tuple values) most_turns) values result }
    ensures idle { env.new ≡ env.old }
{
    if env.inputs.push(values).is_err() {
        return Judged::Memory;
    }
    let mut turns = MOST_TURNS;
    let truth = holds(alloc, at.functions(), condition, env, &mut turns);
    let Some(values) = env.inputs.pop() else {
        unreachable!()
    };
    match truth {
        Truth::Is(holds) => Judged::Held(holds, values),
        Truth::Bad(kind) => Judged::Faulted(kind),
        Truth::Memory => Judged::Memory,
    }
}
