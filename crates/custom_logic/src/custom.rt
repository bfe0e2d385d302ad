//! The operator Custom.
mod calls;
mod first;
mod running;

use language_model::{Env, Handlers};
use port_reacts::CheckedOperator;
use std::alloc::Global;

/// A Custom: it runs the body of a port for each tuple on the port, and another for window markers and
/// for the end of the port, and gives what these submit. Its state is its variables.
pub struct Custom<'c> {
    pub(crate) alloc: Global,
    pub(crate) at: CheckedOperator<'c>,
    pub(crate) handlers: &'c Handlers,
    /// The variables of the state. It has neither tuple nor marker between events.
    pub(crate) env: Env,
}

impl<'c> Drop for Custom<'c> {
    fn drop(self) {
        let Custom {
            alloc: _,
            at: _,
            handlers: _,
            env: _,
        } = self;
    }
}
