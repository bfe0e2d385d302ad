//! What the names of codes mean.
ghost use Rattle.language_model.specs.ValueLaws.{RenamingLaw, WrittenLaw, NamesLaw};

/// A slot that fits is what its name means, and the code of an expression has the same result over the names of its
/// slots.
pub fn names_law()
    ensures written { WrittenLaw }
    ensures names { NamesLaw }
{}

/// A code with other names has the result that the code has where each name has the value of the
/// one that takes its place.
pub fn renaming_law<N, M>()
    ensures renaming { RenamingLaw N M }
{}
