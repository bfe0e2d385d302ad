//! The results of the built-in calls.
ghost use Rattle.spl_value.specs.CallsLaws.{LengthLaw, SizeLaw, HasLaw, AppendLaw, RemoveLaw, ClearLaw, AbsLaw, MinLaw, MaxLaw, SubstringLaw};
ghost use Rattle.spl_value.specs.CallsLaws.{CountLaw, DistanceLaw, LeastNumberLaw, LeastLaw, GreatestLaw, PartLaw, IndexLaw};

/// Arguments of the types that a call takes give a value of its type, or for `substring` alone the
/// fault `Index`.
pub fn calls_law()
    ensures length { LengthLaw }
    ensures size { SizeLaw }
    ensures has { HasLaw }
    ensures append { AppendLaw }
    ensures remove { RemoveLaw }
    ensures clear { ClearLaw }
    ensures abs { AbsLaw }
    ensures min { MinLaw }
    ensures max { MaxLaw }
    ensures substring { SubstringLaw }
{}

/// What calls give, in other words than their definitions. A count below 2^31 is given as it is.
/// `abs` gives the distance from 0, and the least number of a signed type itself. `min` gives one
/// of the two that is greater than neither, and `max` one that is less than neither. `substring`
/// gives a part of the text with `from` bytes before it, of `count` bytes or all that are left, and
/// the fault `Index` exactly where `from` is negative or above the length, or `count` is negative.
pub fn values_law()
    ensures count { CountLaw }
    ensures distance { DistanceLaw }
    ensures least_number { LeastNumberLaw }
    ensures least { LeastLaw }
    ensures greatest { GreatestLaw }
    ensures part { PartLaw }
    ensures index { IndexLaw }
{}
