//! That each tuple of a stream of a run has the attributes of the stream.
#![tactic(auto)]

ghost use Rattle.stream_schemas.specs.Schemas.{ItemsLaw, StreamsLaw};

/// Each tuple of each stream of the meaning of a checked graph has the stream's attributes, where those in the rows of the
/// sources have theirs.
pub fn streams_law()
    ensures streams { StreamsLaw }
    ensures items { ItemsLaw }
{}
