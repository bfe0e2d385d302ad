use crate::sums::Sums;
use indexmap::IndexMap;
use language_model::WindowRule;
use running_folds::Folds;
use spl_value::Values;
use std::alloc::Global;

/// The windows of an input port, one for each key, of whose contents folds over arguments are taken. It keeps the
/// arguments of tuples where they leave one by one, and else only what the folds make of them. What is kept for a
/// key is found by its hash.
pub struct Running {
    pub(crate) alloc: Global,
    pub(crate) rule: WindowRule,
    pub(crate) folds: Folds,
    /// What is kept for each key. Where window markers flush, a key leaves with its content.
    pub(crate) parts: IndexMap<Values, Sums>,
}

impl Drop for Running {
    fn drop(self) {
        let Running {
            alloc: _,
            rule: _,
            folds: _,
            parts: _,
        } = self;
    }
}
