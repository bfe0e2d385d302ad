//! The results of programs and requests.
ghost use Rattle.spl_driver.specs.AcceptedLaws.{KeptLaw, OneAcceptedLaw, SomeAcceptedLaw, TooLongLaw};
ghost use Rattle.spl_driver.specs.ReplayLaws.{ReplayLaw, SameFilesLaw};
ghost use Rattle.spl_driver.specs.RequestLaws.{OneOutcomeLaw, SomeOutcomeLaw, OnePartsLaw, SomePartsLaw};

use arrival_format::format_law;
use check_laws::keeps_law;
use expansion_laws::found_law;
use graph_laws::flat_law;
use spl_tree::tokens_law;
use unit_parser::units_law;

/// The result of a program is a checked graph or a refusal, and that alone. One that is too long is
/// refused, and a checked graph keeps what such a graph has to keep.
pub fn accepted_law()
    ensures one { OneAcceptedLaw }
    ensures some { SomeAcceptedLaw }
    ensures too_long { TooLongLaw }
    ensures kept { KeptLaw }
{
    tokens_law();
    units_law();
    flat_law();
    found_law();
    keeps_law();
}

/// Under an arrival record a request has one result, and its program has one list of operators.
pub fn outcome_law()
    ensures one { OneOutcomeLaw }
    ensures some { SomeOutcomeLaw }
    ensures one_parts { OnePartsLaw }
    ensures some_parts { SomePartsLaw }
{
    accepted_law();
    format_law();
}

/// A replay of the record that a run wrote has the result of the run, if the program and the sources are
/// read alike: where both are carried out, they end alike, and each sink's file holds the same after both.
pub fn replay_law()
    ensures outcome { ReplayLaw }
    ensures files { SameFilesLaw }
{
    accepted_law();
    outcome_law();
    format_law();
}
