//! What an element is made of.
use crate::work::Work;
use spl_value::{Ids, Items, Schema};

/// What an element is made of. A chain without a FileSource begins with the first operator of its work.
#[derive(Drop)]
pub struct ElementPart<R> {
    /// The numbers of its operators in the order of the chain, a FileSource and a FileSink included; those of the region for
    /// a splitter and a merger.
    pub ids: Ids,
    /// The attributes at each input.
    pub ins: Items<Schema>,
    /// How many connections each output port of its last operator has. A splitter has a 1 for each channel, and a
    /// replica one 1.
    pub fans: Ids,
    /// The attributes of the FileSource with which a chain begins.
    pub source: Option<Schema>,
    pub work: Work<R>,
}
