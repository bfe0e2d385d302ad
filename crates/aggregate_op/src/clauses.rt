//! The clauses of an Aggregate.
ghost use Rattle.std.specs.Prelude.{◌<◌, ◌^◌};

use language_model::{CollectedAttribute, Policy};
use port_reacts::CheckedOperator;
use spl_value::{Items, Places};

/// The clauses of an Aggregate, where it stands in the graph.
#[derive(Clone, Copy)]
pub(crate) struct Clauses<'c> {
    pub at: CheckedOperator<'c>,
    pub window: &'c Policy,
    pub partition: &'c Places,
    pub group: &'c Places,
    pub output: &'c Items<CollectedAttribute>,
    /// How many attributes a tuple of the input port has. The values of the arguments stand after them.
    pub width: usize,
    pub ghost small: { width < 2 ^ 63 },
}
