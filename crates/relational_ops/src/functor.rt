//! The operator Functor.
mod calls;
mod making;
mod moves;

use language_model::Env;
use port_reacts::CheckedOperator;
use spl_tree::{Code, Slot};
use spl_value::Items;
use std::alloc::Global;

/// The clauses of a Functor.
#[derive(Drop)]
pub(crate) struct Clauses<'c> {
    pub condition: &'c Option<Code<Slot>>,
    pub output: &'c Code<Slot>,
    /// For each field of the output, the attribute that is moved there from the tuple that came, where one is.
    pub moves: Items<Option<u32>>,
}

/// A Functor: it makes a tuple of each for which its condition holds, or of all where it has none, and
/// passes window markers.
pub struct Functor<'c> {
    pub(crate) alloc: Global,
    pub(crate) at: CheckedOperator<'c>,
    pub(crate) clauses: Clauses<'c>,
    /// It has no tuple between events.
    pub(crate) env: Env,
}

impl<'c> Drop for Functor<'c> {
    fn drop(self) {
        let Functor {
            alloc: _,
            at: _,
            clauses: _,
            env: _,
        } = self;
    }
}
