//! The operator Split.
mod calls;
mod picking;

use language_model::Env;
use port_reacts::CheckedOperator;
use spl_tree::{Code, Slot};
use std::alloc::Global;

/// A Split: it gives each tuple on the output port that its index picks, and window markers on each.
pub struct Split<'c> {
    pub(crate) alloc: Global,
    pub(crate) at: CheckedOperator<'c>,
    pub(crate) index: &'c Code<Slot>,
    /// It has no tuple between events.
    pub(crate) env: Env,
}

impl<'c> Drop for Split<'c> {
    fn drop(self) {
        let Split {
            alloc: _,
            at: _,
            index: _,
            env: _,
        } = self;
    }
}
