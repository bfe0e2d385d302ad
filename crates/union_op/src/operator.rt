//! The operator Union.
mod calls;

use port_reacts::CheckedOperator;
use spl_value::{Items, Places};
use std::alloc::Global;

/// A Union: it gives each tuple of its ports with the attributes of its output, which are taken by name
/// from their places in the tuples of the port. It gives nothing for window markers.
pub struct Union<'c> {
    pub(crate) alloc: Global,
    pub(crate) at: CheckedOperator<'c>,
    /// For each input port, the places in its tuples of the output's attributes.
    pub(crate) places: &'c Items<Places>,
}

impl<'c> Drop for Union<'c> {
    fn drop(self) {
        let Union {
            alloc: _,
            at: _,
            places: _,
        } = self;
    }
}
