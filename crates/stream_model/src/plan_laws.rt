//! Regions of some graphs.
ghost use Rattle.std.specs.Prelude.{◌≡◌, [], ◌∷◌, Some, None, true, false};
ghost use Rattle.language_model.specs.declared.checked.WindowRule.TheVariants as W;
ghost use Rattle.stream_model.specs.declared.plan.Gives.TheVariants as G;
ghost use Rattle.stream_model.specs.declared.plan.Merge.TheVariants as M;
ghost use Rattle.stream_model.specs.declared.plan.StateKind.TheVariants as K;
ghost use Rattle.stream_model.specs.Copies.{source_of, trace};
ghost use Rattle.stream_model.specs.RegionLaws.{KeyedLaw, StatelessLaw};
ghost use Rattle.stream_model.specs.Regions.{IsPlan, chain_key, chain_merge, is_safe, ops_of};
ghost use Rattle.stream_model.specs.Selectivity.{gives};
ghost use Rattle.stream_model.specs.StateKinds.{state_by};
ghost use Rattle.stream_model.specs.examples.SomeRegions.{by_second, changed_key, custom, either_way, one_region, only_positive, partitioned, same_marker, three, two, two_regions};

/// What an event of an operator causes depends on the event alone, where its clauses keep no state. Where they
/// keep one for each key, what a tuple causes depends on the tuples with its key, and what a marker causes on
/// itself.
pub fn regions_law()
    ensures stateless { StatelessLaw }
    ensures keyed { KeyedLaw }
{}

/// What the clauses of some operators say of their state, of copies, and of how many items their events
/// cause.
pub fn clauses_on_literals()
    ensures keyed { state_by (partitioned (W.TumblingCount 2) (0 ∷ 1 ∷ []) three) ≡ K.Keyed (0 ∷ 1 ∷ []) }
    ensures by_markers { state_by (partitioned W.TumblingPunct (0 ∷ []) three) ≡ K.Whole }
    ensures stateless { state_by (custom only_positive (None ∷ [])) ≡ K.Stateless }
    ensures copied { source_of (partitioned (W.TumblingCount 2) (0 ∷ 1 ∷ []) three) 1 ≡ Some 1 }
    ensures not_partition { source_of (partitioned (W.TumblingCount 2) (0 ∷ []) three) 1 ≡ None }
    ensures summed { source_of (partitioned (W.TumblingCount 2) (0 ∷ 1 ∷ []) three) 2 ≡ None }
    ensures submitted { source_of (custom either_way (Some same_marker ∷ [])) 0 ≡ Some 0 }
    ensures traced { trace (partitioned (W.TumblingCount 2) (0 ∷ 1 ∷ []) three ∷ partitioned (W.TumblingCount 2) (1 ∷ []) two ∷ []) 0 ≡ Some 1 }
    ensures at_most_one { gives (custom only_positive (None ∷ [])) ≡ G.AtMostOne }
    ensures one { gives (custom either_way (Some same_marker ∷ [])) ≡ G.One }
    ensures no_marker { gives (custom either_way (None ∷ [])) ≡ G.AtMostOne }
    ensures each_tuple { gives (partitioned (W.SlidingCount 3 (Some 1)) (0 ∷ []) three) ≡ G.One }
    ensures each_second { gives (partitioned (W.SlidingCount 3 (Some 2)) (0 ∷ []) three) ≡ G.AtMostOne }
{}

/// The plans of some graphs: two Aggregates whose keys share an attribute stand in one region, and others
/// in two; so do a Functor that changes a key and an Aggregate by that key.
pub fn plans_on_literals()
    ensures shared { IsPlan (by_second (0 ∷ 1 ∷ [])) one_region }
    ensures not_shared { IsPlan (by_second (0 ∷ [])) two_regions }
    ensures made_anew { is_safe changed_key (ops_of changed_key (1 ∷ 2 ∷ [])) ≡ false }
    ensures functor_turns { chain_merge (ops_of changed_key (1 ∷ [])) ≡ M.Turns }
    ensures functor_without_key { chain_key (ops_of changed_key (1 ∷ [])) ≡ [] }
    ensures by_new_key { chain_key (ops_of changed_key (2 ∷ [])) ≡ 0 ∷ [] }
{}
