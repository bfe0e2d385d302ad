//! What is looked up by name in the bodies of composites.
ghost use Rattle.std.specs.Prelude.{◌≡◌, IfOk};
ghost use Rattle.language_model.specs.Invoking.{input_names, stream_names};
ghost use Rattle.language_model.specs.Names.{is_named};
ghost use Rattle.language_model.specs.parts.StreamTypes.{output_names};
ghost use Rattle.program_tables.specs.Names.{HoldsNames};
ghost use Rattle.body_sites.specs.Names.{type_names_of};

use program_tables::{Names, names_of, names_of_streams};
use spl_tree::Composite;
use spl_value::NoMemory;
use std::alloc::Global;
use written_types::TypeTable;

/// A composite, and what the names in its body mean.
#[derive(Drop)]
pub(crate) struct BodyNames<'u> {
    pub(crate) composite: &'u Composite,
    /// Those of the streams that its graph makes, in the order of the text.
    pub(crate) streams: Names<'u>,
    pub(crate) inputs: Names<'u>,
    pub(crate) outputs: Names<'u>,
    /// Those of its own types.
    types: Names<'u>,
    pub(crate) table: TypeTable<'u>,
    ghost streams_stand: { HoldsNames streams (stream_names composite.now) },
    ghost inputs_stand: { HoldsNames inputs (input_names composite.now) },
    ghost outputs_stand: { HoldsNames outputs (output_names composite.now) },
    ghost types_stand: { HoldsNames types (type_names_of composite.now.types) },
    ghost defined: { table ≡ composite.now.types },
}

impl<'u> BodyNames<'u> {
    pub(crate) fn new(alloc: Global, composite: &'u Composite) -> Result<BodyNames<'u>, NoMemory>
        ensures { IfOk result (λ names. names.composite.now ≡ composite.now) }
    {
        Ok(BodyNames {
            composite,
            streams: names_of_streams(alloc, composite.graph.as_slice())?,
            inputs: names_of(alloc, composite.inputs.as_slice())?,
            outputs: names_of(alloc, composite.outputs.as_slice())?,
            types: names_of(alloc, composite.types.as_slice())?,
            table: TypeTable::of_composite(alloc, composite)?,
        })
    }

    pub(crate) fn has_type(&self, name: &[u8]) -> bool
        ensures { result ≡ is_named (type_names_of self.now.composite.now.types) name.now }
    {
        self.types.has(name)
    }
}
