//! What tokens spell.
ghost use Rattle.unit_parser.specs.Parses.{OneAnswerLaw, OneUnitLaw, SomeAnswerLaw};

/// Tokens spell one unit at most, and one thing is answered of them, lack of memory apart: a unit, or a
/// place at which they are refused.
pub fn units_law()
    ensures one { OneUnitLaw }
    ensures answer { OneAnswerLaw }
    ensures some { SomeAnswerLaw }
{}
