//! What bodies do with the slots that they name, and with variables that aren't mutable.
ghost use Rattle.evaluation_laws.specs.NamedSlotsLaw.{NamedSlotsLaw};
ghost use Rattle.evaluation_laws.specs.ImmutableLaws.{ImmutableLaw, StateKeptLaw};

/// What a body does depends on the marker and on the slots that it names. A body that fits leaves each
/// variable that isn't mutable as it was, and so all of them where none is.
pub fn slots_law()
    ensures named { NamedSlotsLaw }
    ensures immutable { ImmutableLaw }
    ensures kept { StateKeptLaw }
{}
