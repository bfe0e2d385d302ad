//! How many turns codes and bodies take.
ghost use Rattle.evaluation_laws.specs.TurnsLaws.{ValueTurnsLeftLaw, ValueTurnsTakenLaw, ValueWantOfTurnsLaw, ValueFewerTurnsLaw, ValueStuckLaw};
ghost use Rattle.evaluation_laws.specs.TurnsLaws.{RunsTurnsLeftLaw, RunsTurnsTakenLaw, RunsWantOfTurnsLaw, RunsFewerTurnsLaw, RunsStuckLaw};

/// A code that gives a value takes as many turns however many there are, and leaves the others. With
/// fewer it runs out of turns. With fewer than those from which it gives a fault, it gives that fault or
/// runs out of turns, and with more than those from which it is stuck, it is stuck.
pub fn value_turns_law<N>()
    ensures left { ValueTurnsLeftLaw N }
    ensures taken { ValueTurnsTakenLaw N }
    ensures want { ValueWantOfTurnsLaw N }
    ensures fewer { ValueFewerTurnsLaw N }
    ensures stuck { ValueStuckLaw N }
{}

/// The same of what bodies leave.
pub fn runs_turns_law()
    ensures left { RunsTurnsLeftLaw }
    ensures taken { RunsTurnsTakenLaw }
    ensures want { RunsWantOfTurnsLaw }
    ensures fewer { RunsFewerTurnsLaw }
    ensures stuck { RunsStuckLaw }
{}
