//! What the checks of a program give.
ghost use Rattle.check_laws.specs.DollarMeantLaw.{DollarMeantLaw};
ghost use Rattle.check_laws.specs.KeepsLaw.{KeepsLaw};
ghost use Rattle.check_laws.specs.PartsLaw.{PartsLaw};

use graph_laws::flat_law;
use language_laws::{bodies_law, dollars_law, typing_law};

/// The clauses of an operator that are accepted fit its ports: codes fit its scope, attributes are those
/// of its ports, and numbers are in their ranges.
pub fn parts_law()
    ensures fit { PartsLaw }
{
    typing_law();
    dollars_law();
    bodies_law();
}

/// What is found of the graph of a unit keeps what a checked graph has to keep.
pub fn keeps_law()
    ensures keeps { KeepsLaw }
{
    parts_law();
    typing_law();
    dollars_law();
    bodies_law();
    flat_law();
}

/// The expression that a `$` parameter means in an expansion of a unit's graph has the type and the code that the
/// parameter has there.
pub fn dollar_meant_law()
    ensures meant { DollarMeantLaw }
{}
