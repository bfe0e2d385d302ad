//! What holds of the texts of plans.
ghost use Rattle.run_report.specs.PlanTextLaws.{KeyNamesLaw};

/// The names of a region's key are those of the attributes that its first operator has at its input, of
/// which the places of the key speak.
pub fn key_names_law()
    ensures { KeyNamesLaw }
{}
