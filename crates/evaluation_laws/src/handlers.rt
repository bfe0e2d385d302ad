//! What the handlers of a Custom find in its state, what they leave of it and what they submit.
ghost use Rattle.evaluation_laws.specs.HandlerLaws.{FirstValuesLaw, HandlerSubmitsLaw, TupleHandlerLaw, MarkerHandlerLaw};

/// The variables of a Custom's state have first values, each of its type. A handler submits tuples of its
/// ports' attributes and window markers, on ports that there are. From a state that fits, it leaves one that
/// fits, or ends with a fault.
pub fn handlers_law()
    ensures first { FirstValuesLaw }
    ensures submits { HandlerSubmitsLaw }
    ensures tuples { TupleHandlerLaw }
    ensures markers { MarkerHandlerLaw }
{}
