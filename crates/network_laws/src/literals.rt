ghost use Rattle.network_laws.specs.RegionStreams.{RegionsHold};
ghost use Rattle.network_laws.specs.RegionLaws.{RegionsObey};
ghost use Rattle.list_engine.specs.examples.Chain.{chain};
ghost use Rattle.pe_fusion.specs.Counts.{channel_counts, planned_counts};
ghost use Rattle.pe_fusion.specs.FusedNets.{fused_net};
ghost use Rattle.pe_fusion.specs.Pieces.{replicated};
ghost use Rattle.network_laws.specs.PlannedLaws.{RunsPlan};
ghost use Rattle.network_laws.specs.Propers.{HasSchema};
ghost use Rattle.network_laws.specs.examples.CheckedPath.{chain_plan, checked_path, path_plan};
ghost use Rattle.network_laws.specs.examples.CheckedSums.{checked_sums, sums_plan};
ghost use Rattle.network_laws.specs.examples.KeyedNet.{keyed_net};
ghost use Rattle.network_laws.specs.examples.PathNet.{cut_list, no_entries, path_list, path_net, path_rows, some_graph};
ghost use Rattle.network_laws.specs.examples.RegionNet.{filter_region, region_list, region_meaning, region_net};
ghost use Rattle.network_model.specs.Flow.{IsUnder};
ghost use Rattle.network_model.specs.Joined.{lists_of};
ghost use Rattle.network_model.specs.Legal.{AllDone, Clean, IsLegal};
ghost use Rattle.network_model.specs.States.{after_all, begin};
ghost use Rattle.network_model.specs.Wiring.{IsWired};
ghost use Rattle.region_laws.specs.examples.SomeReplicas.{filtered_sums};
ghost use Rattle.std.specs.Prelude.{◌≡◌, ℕ, [], ◌∷◌};
ghost use Rattle.spl_value.specs.declared.item.Item.TheVariants as I;
ghost use Rattle.stream_model.specs.CheckedMeaning.{graph_of, schema_at};
ghost use Rattle.stream_model.specs.Meaning.{Entries, Lists, Meaning, meaning};

/// A source, a filter and a sink over an empty file, which run their program at width 1, with a list of events that comes to its end, and one that is cut.
pub fn networks_on_literals()
    ensures wired { IsWired some_graph path_net }
    ensures regions { (m : Meaning) → RegionsHold path_net m }
    ensures legal { IsLegal path_net path_list }
    ensures done { AllDone path_net (after_all path_net begin path_list) }
    ensures clean { Clean path_net (after_all path_net begin path_list) }
    ensures under { IsUnder path_net (lists_of path_net (after_all path_net begin path_list)) path_rows no_entries }
    ensures cut_legal { IsLegal path_net cut_list }
    ensures cut_done { AllDone path_net (after_all path_net begin cut_list) }
    ensures cut_under { IsUnder path_net (lists_of path_net (after_all path_net begin cut_list)) path_rows no_entries }
    ensures runs { RunsPlan checked_path path_plan 1 path_net }
{}

/// The same with the filter as a region of two channels, which run the program at width 2. A program with two filters
/// in a row, which merge by pulses, is run at every width by the network into which it is fused.
pub fn regions_on_literals()
    ensures wired { IsWired some_graph region_net }
    ensures regions { RegionsHold region_net region_meaning }
    ensures legal { IsLegal region_net region_list }
    ensures done { AllDone region_net (after_all region_net begin region_list) }
    ensures clean { Clean region_net (after_all region_net begin region_list) }
    ensures under { IsUnder region_net (lists_of region_net (after_all region_net begin region_list)) path_rows no_entries }
    ensures runs { RunsPlan checked_path path_plan 2 region_net }
    ensures schemas { (s : ℕ) → HasSchema region_meaning s (schema_at checked_path s) }
    ensures fused { (width capacity : ℕ) → RunsPlan chain chain_plan width (fused_net (graph_of chain) chain_plan width capacity) }
{}

/// A source, a Filter and an Aggregate by keys as a region of two channels that merges by pulses, and a sink, which run
/// their program at width 2.
pub fn keys_on_literals()
    ensures wired { IsWired filtered_sums keyed_net }
    ensures obeys { RegionsObey keyed_net }
    ensures regions { (rows : Lists) (entries : Entries) → RegionsHold keyed_net (meaning filtered_sums rows entries) }
    ensures legal { IsLegal keyed_net [] }
    ensures runs { RunsPlan checked_sums sums_plan 2 keyed_net }
{}

/// What is counted of the filter's region: of an empty file at width 2, and of three rows in turn at width 3; and at width
/// 1 no region runs in replicas.
pub fn counts_on_literals()
    ensures of_none { (planned_counts some_graph path_plan 2 region_meaning).channels
        ≡ record { region = 0; channel = 0; events = 1 } ∷ record { region = 0; channel = 1; events = 0 } ∷ [] }
    ensures of_three { channel_counts (record filter_region { width = 3 })
        (I.Tuple [] ∷ I.Tuple [] ∷ I.Tuple [] ∷ I.Window ∷ I.Final ∷ []) 0 0 3
        ≡ record { region = 0; channel = 0; events = 2 } ∷ record { region = 0; channel = 1; events = 2 }
        ∷ record { region = 0; channel = 2; events = 1 } ∷ [] }
    ensures alone { replicated 1 path_plan ≡ [] }
{}
