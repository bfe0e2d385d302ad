ghost use Rattle.merger_works.specs.Laws.{BeginLaw, WantsLaw, WidthLaw};

/// A new merger of one channel or more has taken and given nothing.
pub fn begin_law()
    ensures begins { BeginLaw }
{}

/// A merger between two packets, whose packets are in order, wants one on a channel exactly where the network lets it pop
/// there. It holds a place for each channel's head.
pub fn wants_law()
    ensures wants { WantsLaw }
    ensures width { WidthLaw }
{}
