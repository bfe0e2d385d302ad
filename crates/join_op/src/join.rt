//! The operator Join.
mod calls;
mod events;

use crate::clauses::Clauses;
use language_model::Env;
use std::alloc::Global;
use window_policy::Window;

/// A Join: a tuple that comes on one port gives a tuple with each of those in the other port's window for
/// which its condition holds, or with each where it has none, the oldest first. Then it goes into the
/// window of its own port. The pairs of an event share its turns. Window markers aren't passed.
pub struct Join<'c> {
    pub(crate) alloc: Global,
    pub(crate) clauses: Clauses<'c>,
    pub(crate) left: Window,
    pub(crate) right: Window,
    /// It has room for the two tuples of a pair.
    pub(crate) env: Env,
}

impl<'c> Drop for Join<'c> {
    fn drop(self) {
        let Join {
            alloc: _,
            clauses: _,
            left: _,
            right: _,
            env: _,
        } = self;
    }
}
