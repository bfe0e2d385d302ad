//! The faults of operators.
ghost use Rattle.fault_kinds.specs.OperatorKinds.{MakesKindsLaw, BodyKindsLaw, ReactKindsLaw};

/// What an operator makes of an item has faults of evaluation alone. Where its clauses and its events fit,
/// so does its body; and at an event that is no fault each fault that is given, and one with which the operator
/// ends, names the operator, is one of evaluation and has no line.
pub fn operator_kinds_law()
    ensures makes { MakesKindsLaw }
    ensures body { BodyKindsLaw }
    ensures react { ReactKindsLaw }
{}
