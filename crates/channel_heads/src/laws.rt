ghost use Rattle.channel_heads.specs.FrontLaws.{CutLaw, FrontLaw, OrderLaw};
ghost use Rattle.channel_heads.specs.MergeLaws.{PrefixLaw, WholeLaw};

/// What a merger has given, whatever packets it took and whenever it was asked: where these are in order, it
/// is the front of their merge, and all of it where no head may be given and the merger wasn't cut.
pub fn merge_law()
    ensures prefix { PrefixLaw }
    ensures whole { WholeLaw }
{}

/// Of channels whose packets are in order, so are the fronts that were taken of them, and what is known of these is a
/// front of all their items by number. `Cut` behind them makes nothing known.
pub fn fronts_law()
    ensures order { OrderLaw }
    ensures front { FrontLaw }
    ensures cuts { CutLaw }
{}
