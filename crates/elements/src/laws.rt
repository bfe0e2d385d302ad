//! What the work of an element may take, and when its sink has all its tuples.
ghost use Rattle.std.specs.Prelude.{◌≡◌, [], false, List};
ghost use Rattle.spl_value.specs.declared.value.Value.{Value};
ghost use Rattle.network_model.specs.Networks.{Part};
ghost use Rattle.network_model.specs.Sinks.{pours};
ghost use Rattle.network_model.specs.States.{At, waiting};
ghost use Rattle.elements.specs.Standing.{IsSpent};
ghost use Rattle.elements.specs.Suiting.{ReadsLaw, TakesLaw};

use crate::element::Element;

/// Where the operators of an element read what its inputs carry, its work may take a packet that is proper behind those
/// that were taken there, a merger in order, and an item of its source that has the source's attributes.
pub fn work_law()
    ensures takes { TakesLaw }
    ensures reads { ReadsLaw }
{}

/// Where an element isn't cut and no tuple waits for its sink, what it has poured is all that its chain gives the sink for
/// what it has taken.
pub fn poured_law<R>(element: &Element<R>)
    ensures { (part : Part) (a : At) (poured : List (List Value)) → IsSpent part element.now a poured → a.cut ≡ false
        → waiting part a poured ≡ [] → poured ≡ pours part a.kept }
{}
