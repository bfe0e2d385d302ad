//! The operator Punctor.
mod calls;

use language_model::{Env, Position};
use port_reacts::CheckedOperator;
use spl_tree::{Code, Slot};
use std::alloc::Global;

/// A Punctor: it passes tuples and window markers, and adds a window marker before or after each tuple
/// for which its condition holds.
pub struct Punctor<'c> {
    pub(crate) alloc: Global,
    pub(crate) at: CheckedOperator<'c>,
    pub(crate) condition: &'c Code<Slot>,
    pub(crate) position: Position,
    /// It has no tuple between events.
    pub(crate) env: Env,
}

impl<'c> Drop for Punctor<'c> {
    fn drop(self) {
        let Punctor {
            alloc: _,
            at: _,
            condition: _,
            position: _,
            env: _,
        } = self;
    }
}
