//! That packets can be in order for each merger, with the merge of some.
ghost use Rattle.std.specs.Prelude.{◌≡◌, [], ◌∷◌};
ghost use Rattle.spl_value.specs.declared.item.Item.TheVariants.{Window, Final};
ghost use Rattle.spl_value.specs.Numbered.{ByTurns, ByNumbers, ByPulses, InOrder, merged};
ghost use Rattle.network_tests.specs.Premises.{in_turn, with_pulses};

/// Packets that are in order for each of the three mergers, and what is merged of them.
pub fn packets_in_order()
    ensures turns { InOrder ByTurns 2 in_turn }
    ensures numbers { InOrder ByNumbers 2 in_turn }
    ensures pulses { InOrder ByPulses 2 with_pulses }
    ensures by_turns { merged ByTurns 2 in_turn ≡ Window ∷ Final ∷ [] }
    ensures by_numbers { merged ByNumbers 2 in_turn ≡ Window ∷ Final ∷ [] }
    ensures by_pulses { merged ByPulses 2 with_pulses ≡ Window ∷ Window ∷ [] }
{}
