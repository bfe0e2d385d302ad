//! The environment in which an operator evaluates its clauses.
ghost use Rattle.std.specs.Prelude.{◌≡◌, IfOk};
ghost use Rattle.port_reacts.specs.Evaluation.{idle};

use language_model::Env;
use spl_value::{Items, NoMemory};
use std::alloc::Global;

/// An environment without a tuple, and with room for one.
pub fn idle_env(alloc: Global) -> Result<Env, NoMemory>
    ensures { IfOk result (λ env. env ≡ idle) }
{
    Ok(Env {
        inputs: Items::with_capacity(alloc, 1)?,
        vars: Items::new(alloc),
        punct: None,
    })
}
