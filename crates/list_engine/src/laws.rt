//! What holds of runs.
ghost use Rattle.std.specs.Prelude.{◌≡◌, []};
ghost use Rattle.language_model.specs.Keeping.{Keeps};
ghost use Rattle.stream_model.specs.CheckedMeaning.{graph_of};
ghost use Rattle.stream_model.specs.Operators.{Operator};
ghost use Rattle.list_engine.specs.Runs.{AreOperators};
ghost use Rattle.stream_model.specs.Runs.{RowsFit};
ghost use Rattle.list_engine.specs.examples.Chain.{chain, chain_graph, chain_operators, chain_rows};
ghost use Rattle.list_engine.specs.RunLaws.{SinkLaw, FaultNamesLaw};
ghost use Rattle.stream_model.specs.RunLaws.{OrderedLaw, SameRecordsLaw};

/// The graph of operators of a checked graph is ordered, and its operators are numbered by their places, so
/// the laws of graphs speak of each graph that is run. A sink gives its writer tuples alone. What a graph
/// means under a record depends on what that has for the operators with several connections. The fault of a
/// run names one of the operators, where the rows' faults name their own sources.
pub fn engine_law()
    ensures ordered { OrderedLaw }
    ensures sinks { SinkLaw }
    ensures records { SameRecordsLaw }
    ensures fault_names { FaultNamesLaw }
{}

/// A worked graph, of a source, two filters and two sinks, keeps what a checked graph has to keep. Its
/// operators are fresh, and its source has rows that fit.
pub fn runs_on_literals()
    ensures keeps { Keeps chain }
    ensures graph { graph_of chain ≡ chain_graph }
    ensures operators { AreOperators (λ (o : Operator). o) (λ o h. h ≡ []) chain_graph chain_operators }
    ensures rows { RowsFit chain_graph chain_rows }
{}
