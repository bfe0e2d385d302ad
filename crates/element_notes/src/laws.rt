//! How the ends of an element end.
ghost use Rattle.element_notes.specs.EndLaws.{StreamEndsLaw};

/// In a network that runs a graph each stream of the last operator of a chain, and of a region for its merger, ends as that
/// operator does.
pub fn stream_ends_law()
    ensures { StreamEndsLaw }
{}
