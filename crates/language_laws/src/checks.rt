//! What holds of the checks of types and of the table of kinds.
ghost use Rattle.language_laws.specs.KindLaws.{KindNamesLaw, KindRowsLaw};
ghost use Rattle.language_model.specs.BodyLaws.{BodyFitLaw, BodyReturnsLaw};
ghost use Rattle.language_model.specs.TypeNameLaws.{NamesLaw};

/// What a name means among definitions of types is what its definition says, in which names mean
/// the same. So the number of definitions that are followed doesn't show.
pub fn types_law()
    ensures names { NamesLaw }
{}

/// The code of a body fits where the body stands, and ends with a result where its text does.
pub fn bodies_law()
    ensures fits { BodyFitLaw }
    ensures returns { BodyReturnsLaw }
{}

/// Each kind of operator is the one of its name, and checked clauses have the windows, the output and
/// the logic that the table says for the kind.
pub fn kind_rules_law()
    ensures names { KindNamesLaw }
    ensures rows { KindRowsLaw }
{}
