//! Texts of some plans, and of what some runs counted.
ghost use Rattle.std.specs.Prelude.{◌≡◌, [], ◌∷◌, codes};
ghost use Rattle.stream_model.specs.declared.plan.Merge.TheVariants as M;
ghost use Rattle.run_report.specs.PlanTexts.{plan_text};
ghost use Rattle.run_report.specs.CountTexts.{counts_text};
ghost use Rattle.run_report.specs.examples.SomePlans.{region_with, row, sink_first, two_ways};
ghost use Rattle.run_report.specs.examples.SomeCounts.{channel, counts_with, sink};

/// The texts of some plans: a region of two operators with a key of one attribute or of two, one for each of
/// them, one whose operators don't stand together in the topological order, and one of an operator and an
/// attribute that aren't there.
pub fn plan_texts_on_literals()
    ensures one_region { plan_text row (region_with (1 ∷ 2 ∷ []) (1 ∷ []) M.Pulses ∷ [])
        ≡ codes "single In\nregion 0 merge pulses key b: F A\nsingle Out\n" }
    ensures two_attributes { plan_text row (region_with (1 ∷ 2 ∷ []) (0 ∷ 1 ∷ []) M.Numbers ∷ [])
        ≡ codes "single In\nregion 0 merge numbers key a,b: F A\nsingle Out\n" }
    ensures two_regions { plan_text row (region_with (1 ∷ []) [] M.Turns ∷ region_with (2 ∷ []) (0 ∷ []) M.Pulses ∷ [])
        ≡ codes "single In\nregion 0 merge turns key -: F\nregion 1 merge pulses key k: A\nsingle Out\n" }
    ensures no_region { plan_text row [] ≡ codes "single In\nsingle F\nsingle A\nsingle Out\n" }
    ensures apart { plan_text two_ways (region_with (1 ∷ 3 ∷ 4 ∷ []) (1 ∷ []) M.Pulses ∷ region_with (2 ∷ []) [] M.Pulses ∷ [])
        ≡ codes "single In\nregion 0 merge pulses key sym: C1.Good V A\nregion 1 merge pulses key -: C2.Good\nsingle AllOut\nsingle BigOut\n" }
    ensures in_topological_order { plan_text sink_first [] ≡ codes "single In\nsingle Out\n" }
    ensures not_there { plan_text sink_first (region_with (1 ∷ 9 ∷ []) (5 ∷ []) M.Pulses ∷ [])
        ≡ codes "region 0 merge pulses key : In \nsingle Out\n" }
{}

/// The texts of what some runs counted: of two channels and two sinks, of a sink that isn't there, and of none.
pub fn count_texts_on_literals()
    ensures two_sinks { counts_text two_ways (counts_with (channel 0 0 3 ∷ channel 0 1 4 ∷ []) (sink 5 2 ∷ sink 6 10 ∷ []))
        ≡ codes "region 0 channel 0 events 3\nregion 0 channel 1 events 4\nsink AllOut tuples 2\nsink BigOut tuples 10\n" }
    ensures two_regions { counts_text two_ways (counts_with (channel 0 1 100 ∷ channel 1 0 7 ∷ []) [])
        ≡ codes "region 0 channel 1 events 100\nregion 1 channel 0 events 7\n" }
    ensures no_channel { counts_text row (counts_with [] (sink 3 0 ∷ [])) ≡ codes "sink Out tuples 0\n" }
    ensures not_there { counts_text row (counts_with [] (sink 9 1 ∷ [])) ≡ codes "sink  tuples 1\n" }
    ensures nothing { counts_text row (counts_with [] []) ≡ [] }
{}
