//! What expressions and statements evaluate to, and what that depends on.
ghost use Rattle.language_model.specs.ValueLaws.{NeverStuckLaw, StatementLeadsLaw, BodyLeavesLaw};
ghost use Rattle.language_model.specs.TurnsLaws.{ValueTurnsLaw, ValueFaultsLaw, RunsTurnsLaw, RunsFaultsLaw};
ghost use Rattle.evaluation_laws.specs.SlotsLaws.{VariablesLaw, UnchangedLaw, InputsLaw, KeepsLaw, AgreementLaw};
ghost use Rattle.evaluation_laws.specs.SubmitsLaws.{SubmitsLaw};

/// What evaluation does. A code that fits isn't stuck, nor is a statement or a body.
pub fn evaluation_law()
    ensures never_stuck { NeverStuckLaw }
    ensures statements { StatementLeadsLaw }
    ensures bodies { BodyLeavesLaw }
{}

/// What a row of statements does doesn't depend on the submits before it. A body that reaches its
/// end, or a fault other than running out of turns, does so with more turns, and leaves more. What it does
/// depends on the slots alone that it names, and it changes no other variable, no tuple at a port, and
/// not the marker.
pub fn statements_law()
    ensures submits { SubmitsLaw }
    ensures runs { RunsTurnsLaw }
    ensures faults { RunsFaultsLaw }
    ensures variables { VariablesLaw }
    ensures unchanged { UnchangedLaw }
    ensures inputs { InputsLaw }
    ensures keeps { KeepsLaw }
{}

/// A code that gives a value, or a fault other than running out of turns, does so with more turns,
/// and leaves more. Its result depends on the marker and the values of its names alone.
pub fn value_law<N>()
    ensures value { ValueTurnsLaw N }
    ensures faults { ValueFaultsLaw N }
    ensures names { AgreementLaw N }
{}
