//! The values of codes of literals.
ghost use Rattle.evaluation_laws.specs.LiteralLaws.{LiteralLaw};

/// A code of literals that fits a type has one value, of the type, wherever it is evaluated, and takes no
/// turn.
pub fn literals_law()
    ensures literals { LiteralLaw }
{}
