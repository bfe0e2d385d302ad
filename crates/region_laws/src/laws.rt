//! What holds of regions.
ghost use Rattle.std.specs.Prelude.{◌≡◌, List, [], ◌∷◌, false, true, map};
ghost use Rattle.spl_value.specs.declared.item.Item.{Item};
ghost use Rattle.spl_value.specs.declared.item.Item.TheVariants as I;
ghost use Rattle.spl_value.specs.declared.packet.Packet.TheVariants as P;
ghost use Rattle.spl_value.specs.declared.routing.Routing.TheVariants as R;
ghost use Rattle.spl_value.specs.Numbered.{ByPulses, ByTurns, cut};
ghost use Rattle.language_model.specs.declared.checked.WindowRule.TheVariants as W;
ghost use Rattle.stream_model.specs.declared.plan.StateKind.TheVariants as K;
ghost use Rattle.stream_model.specs.Stages.{chain, start};
ghost use Rattle.stream_model.specs.StateKinds.{state_by};
ghost use Rattle.stream_model.specs.Stream.{any_closes};
ghost use Rattle.stream_model.specs.examples.SomeRegions.{partitioned, three};
ghost use Rattle.stream_model.specs.Sending.{on_output, replies, splits};
ghost use Rattle.std.specs.List.{AllByRecursion};
ghost use Rattle.region_laws.specs.NumberLaws.{ApartLaw, CauseLaw, FallLaw, ItemsLaw};
ghost use Rattle.region_laws.specs.OneItemLaws.{ClassOneLaw, FirstPortLaw, GivesOne, MergeOneLaw, OneLaw, RiseLaw, TurnLaw};
ghost use Rattle.region_laws.specs.PlanFronts.{PlanFrontLaw, PlanStateLaw, PlanWholeLaw};
ghost use Rattle.region_laws.specs.RegionFronts.{IsRegionOf, MoreLaw, OneWholeLaw, RegionFrontLaw, RegionWholeLaw, SplitLaw};
ghost use Rattle.region_laws.specs.RegionLaw.{ChainLaw, RegionLaw};
ghost use Rattle.region_laws.specs.RegionProper.{HasKeyLaw, KeyPlacesLaw, ProperLaw};
ghost use Rattle.region_laws.specs.ReplicaState.{HasRegionKey, KeyLaw, StateLaw, WindowLaw};
ghost use Rattle.region_laws.specs.examples.SomeReplicas.{chained, filter, filtered_sums, keyed_region, one_tuple};
ghost use Rattle.stream_model.specs.PortLaws.{has_connections};
ghost use Rattle.stream_model.specs.Regions.{IsPlan, chain_key, is_safe, routing_by};

/// What the replicas of a region give for any stream, merged by number, is what the region's chain gives on one
/// thread, at every width, faults included.
pub fn region_law()
    ensures chain { ChainLaw }
    ensures region { RegionLaw }
{}

/// While a chain hasn't ended, the operators of its replicas have the tuples of a key where the key leads, as one
/// thread has them, and nowhere else.
pub fn replica_state_law()
    ensures tuples { StateLaw }
    ensures keys { KeyLaw }
    ensures windows { WindowLaw }
    ensures plans { PlanStateLaw }
{}

/// A replica gives the items of its chain, each under the number of its cause. The numbers never fall, and no two
/// replicas give the same number.
pub fn numbers_law()
    ensures items { ItemsLaw }
    ensures cause { CauseLaw }
    ensures falls { FallLaw }
    ensures apart { ApartLaw }
{}

/// Where each event causes exactly one item, a replica gives one for each that it takes, until it ends. So the
/// numbers on a channel rise, and where items go in turn, they come in turn.
pub fn one_item_law()
    ensures each { OneLaw }
    ensures turns { TurnLaw }
    ensures rises { RiseLaw }
    ensures first { FirstPortLaw }
    ensures class { ClassOneLaw }
    ensures regions { MergeOneLaw }
{}

/// Whatever fronts the replicas of a region and its merger have taken, what the merger knows is the front of what
/// the chain gives, and all of it once the splitter has sent its end and all was taken.
pub fn region_fronts_law()
    ensures split { SplitLaw }
    ensures front { RegionFrontLaw }
    ensures whole { RegionWholeLaw }
    ensures ones { OneWholeLaw }
    ensures more { MoreLaw }
{}

/// Of each region of a checked program's plan, what its merger knows is the front of what its chain gives, and all of
/// it once the stream has come to its end and all was taken. A replica sends for each packet more what its operators
/// give where they stand.
pub fn plan_fronts_law()
    ensures front { PlanFrontLaw }
    ensures whole { PlanWholeLaw }
{}

/// What goes over the links inside a region of a checked program's plan is proper, where the stream that the region
/// reads has its attributes. The key's places are in range and of types that keys may have.
pub fn region_links_law()
    ensures proper { ProperLaw }
    ensures places { KeyPlacesLaw }
    ensures key { HasKeyLaw }
{}

/// Chains, tuples, operators and a plan of which the laws speak; what a splitter sends for an item that closes its
/// stream and is a sixteenth one; and what a replica sends that has ended.
pub fn regions_on_literals()
    ensures safe { is_safe filtered_sums chained ≡ true }
    ensures connected { AllByRecursion (λ op. has_connections op ≡ true) chained }
    ensures keyed { HasRegionKey filter (chain_key chained) one_tuple one_tuple }
    ensures one { AllByRecursion GivesOne filter }
    ensures state { state_by (partitioned (W.TumblingCount 2) (0 ∷ 1 ∷ []) three) ≡ K.Keyed (0 ∷ 1 ∷ []) }
    ensures open_chain { any_closes (chain chained (I.Tuple one_tuple ∷ [])) ≡ false }
    ensures plan { IsPlan filtered_sums (keyed_region ∷ []) }
    ensures by_pulses { (items : List Item) → IsRegionOf filtered_sums chained ByPulses 2 (cut items) (λ c. on_output c (splits (routing_by (chain_key chained)) 2 true 0 items)) }
    ensures by_turns { (items : List Item) → IsRegionOf filtered_sums filter ByTurns 3 (cut items) (λ c. on_output c (splits (routing_by (chain_key filter)) 3 false 0 items)) }
    ensures sixteenth { on_output 1 (splits R.Turns 2 true 14 (I.Window ∷ I.Final ∷ []))
        ≡ P.Item 15 I.Final ∷ P.Pulse 16 ∷ P.Close ∷ [] }
    ensures other_channel { on_output 0 (splits R.Turns 2 true 14 (I.Window ∷ I.Final ∷ []))
        ≡ P.Item 14 I.Window ∷ P.Pulse 16 ∷ P.Close ∷ [] }
    ensures ended { replies (map start filter) (P.Item 3 I.Window ∷ P.Item 5 I.Final ∷ P.Item 7 I.Window ∷ P.Pulse 16 ∷ P.Close ∷ [])
        ≡ P.Item 3 I.Window ∷ P.Item 5 I.Final ∷ P.Pulse 16 ∷ P.Close ∷ [] }
{}
