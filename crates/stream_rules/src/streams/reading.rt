//! What is read of the table of streams.
ghost use Rattle.std.specs.Prelude.{◌≡◌, List, length};
ghost use Rattle.spl_tree.specs.declared.graph.Graph.{Graph};
ghost use Rattle.spl_tree.specs.declared.unit.Definition.{Definition};
ghost use Rattle.language_model.specs.Leading.{leads_back};
ghost use Rattle.language_model.specs.StreamTypes.{stream_attributes, stream_leads};
ghost use Rattle.language_model.specs.Finds.{Finds};
ghost use Rattle.stream_rules.specs.Streams.{IsTableOf};

use super::StreamTable;
use crate::origins::flag_at;
use crate::refusals::copy_of;
use language_model::{TypeAnswer, mismatch};
use spl_value::{Schema, copy_schema};
use std::alloc::Global;

impl StreamTable {
    /// The attributes of a stream, or its refusal.
    ///
    /// `Refused` is the first refusal in its shape. It is a mismatch where the shape is no tuple, and a
    /// name without a meaning where a name of a stream leads back to itself. A stream that the graph
    /// doesn't have is a mismatch at 0.
    pub fn attributes(&self, alloc: Global, stream: u32) -> Result<Schema, TypeAnswer>
        ensures { (unit : List Definition) (g : Graph) → IsTableOf unit g self.now → Finds (stream_attributes unit g stream) result }
    {
        match self.found.get(stream as usize) {
            Some(Ok(schema)) => Ok(copy_schema(alloc, schema.as_slice())?),
            Some(Err(refusal)) => Err(copy_of(alloc, refusal)),
            None => Err(mismatch(0)),
        }
    }

    /// Whether a stream leads back to itself by its shape.
    pub(crate) fn leads_back(&self, stream: u32) -> bool
        ensures { (unit : List Definition) (g : Graph) → IsTableOf unit g self.now → result ≡ leads_back (length g.streams) (stream_leads unit g) stream }
    {
        flag_at(self.back.as_slice(), stream)
    }
}
