//! What elements are made of, and what they put.
ghost use Rattle.element_laws.specs.Made.{FitLaw};
ghost use Rattle.element_laws.specs.Putting.{OwesLaw, PutsLaw};

use stream_model::React;

/// What a checked graph, its plan and a width make an element of fits: an element may be made of it, whose operators read
/// what comes to them.
pub fn parts_law<R: React>()
    ensures fit { FitLaw R.spec R.stands }
{}

/// What an element puts on an output is proper for the attributes of its stream, where what it takes is proper at its
/// inputs and a merger takes packets in order.
pub fn puts_law<R: React>()
    ensures owes { OwesLaw }
    ensures puts { PutsLaw R.spec R.stands }
{}
