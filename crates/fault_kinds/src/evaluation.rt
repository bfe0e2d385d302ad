//! The faults of codes, statements and bodies.
ghost use Rattle.fault_kinds.specs.EvaluationKinds.{ValueKindsLaw, StatementKindsLaw, FunctionKindsLaw, RunsKindsLaw};

/// A fault of a code is a division by zero, an index out of range, a key that isn't there, or a lack
/// of turns: never one of a row, a file or a read.
pub fn value_kinds_law<N>()
    ensures { ValueKindsLaw N }
{}

/// The same of statements, functions and bodies.
pub fn bodies_kinds_law()
    ensures statements { StatementKindsLaw }
    ensures functions { FunctionKindsLaw }
    ensures bodies { RunsKindsLaw }
{}
