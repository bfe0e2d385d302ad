//! What codes are evaluated in, and what statements run in.
ghost use Rattle.std.specs.Prelude.{◌≡◌};

use language_model::Env;
use spl_tree::Functions;
use std::alloc::Global;

/// What a code is evaluated in.
#[derive(Clone, Copy)]
pub(crate) struct Context<'e> {
    pub(crate) alloc: Global,
    pub(crate) functions: &'e Functions,
    pub(crate) env: &'e Env,
    /// How deep calls may nest.
    pub(crate) depth: u32,
}

impl<'e> Context<'e> {
    /// What codes are evaluated in, where each call takes one of these turns.
    pub(crate) fn new(
        alloc: Global,
        functions: &'e Functions,
        env: &'e Env,
        turns: u32,
    ) -> Context<'e>
        ensures functions { result.functions.now ≡ functions.now }
        ensures env { result.env.now ≡ env.now }
        ensures depth { result.depth ≡ turns }
    {
        Context {
            alloc,
            functions,
            env,
            depth: turns,
        }
    }
}

/// What a statement runs in, beside the environment that it changes.
#[derive(Clone, Copy)]
pub(crate) struct Program<'p> {
    pub(crate) alloc: Global,
    pub(crate) functions: &'p Functions,
    /// How deep calls may nest.
    pub(crate) depth: u32,
}
