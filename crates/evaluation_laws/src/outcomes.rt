//! What becomes of codes and bodies that fit.
ghost use Rattle.evaluation_laws.specs.OutcomeLaws.{ValueNotStuckLaw, RunsNotStuckLaw};

/// A code that fits gives a value of its type, and a body that fits leaves what fits, with no more turns
/// than there were, or they end with a fault.
pub fn outcomes_law()
    ensures values { ValueNotStuckLaw }
    ensures bodies { RunsNotStuckLaw }
{}
