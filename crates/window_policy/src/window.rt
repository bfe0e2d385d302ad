use crate::part::Part;
use indexmap::{IndexMap, IndexSet};
use language_model::Policy;
use spl_value::Values;
use std::alloc::Global;

/// The windows of an input port, one for each key. What is held for a key is found by its hash.
pub struct Window {
    pub(crate) alloc: Global,
    pub(crate) policy: Policy,
    /// What is held for each key. Where window markers flush, a key leaves with its content.
    pub(crate) parts: IndexMap<Values, Part>,
    /// Where window markers flush, each key that came.
    pub(crate) known: IndexSet<Values>,
    /// Where in `parts` the key of the newest tuple stands, where no marker came after it.
    pub(crate) place: usize,
}

impl Drop for Window {
    fn drop(self) {
        let Window {
            alloc: _,
            policy: _,
            parts: _,
            known: _,
            place: _,
        } = self;
    }
}
