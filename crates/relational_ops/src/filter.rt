//! The operator Filter.
mod calls;

use language_model::Env;
use port_reacts::CheckedOperator;
use spl_tree::{Code, Slot};
use std::alloc::Global;

/// A Filter: it passes the tuples for which its condition holds, or all where it has none, and window
/// markers.
pub struct Filter<'c> {
    pub(crate) alloc: Global,
    pub(crate) at: CheckedOperator<'c>,
    pub(crate) condition: &'c Option<Code<Slot>>,
    /// It has no tuple between events.
    pub(crate) env: Env,
}

impl<'c> Drop for Filter<'c> {
    fn drop(self) {
        let Filter {
            alloc: _,
            at: _,
            condition: _,
            env: _,
        } = self;
    }
}
