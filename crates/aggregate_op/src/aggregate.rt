//! The operator Aggregate.
mod calls;
mod events;
mod running;
mod whole;

use crate::clauses::Clauses;
use crate::kept::Kept;
use language_model::Env;
use std::alloc::Global;

/// An Aggregate: it gives a tuple for each group of a content with which its window fires, by ascending key.
/// The arguments of its assignments are evaluated when a tuple comes. A window marker follows each content of
/// a window that tumbles, and those of a window that slides are passed.
pub struct Aggregate<'c> {
    pub(crate) alloc: Global,
    pub(crate) clauses: Clauses<'c>,
    pub(crate) kept: Kept,
    /// It has no tuple between events.
    pub(crate) env: Env,
}

impl<'c> Drop for Aggregate<'c> {
    fn drop(self) {
        let Aggregate {
            alloc: _,
            clauses: _,
            kept: _,
            env: _,
        } = self;
    }
}
