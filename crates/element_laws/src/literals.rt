//! Worked elements.
ghost use Rattle.std.specs.Prelude.{◌<◌, ◌^◌, ◌∷◌, [], length, map};
ghost use Rattle.language_model.specs.Keeping.{Keeps};
ghost use Rattle.stream_model.specs.CheckedMeaning.{graph_of, schema_at};
ghost use Rattle.stream_model.specs.Operators.{Operator};
ghost use Rattle.stream_model.specs.Regions.{IsPlan, ops_of};
ghost use Rattle.stream_model.specs.Stages.{start};
ghost use Rattle.spl_value.specs.Numbered.{IsProper};
ghost use Rattle.stream_model.specs.Sending.{on_output};
ghost use Rattle.list_engine.specs.examples.Chain.{chain, numbers};
ghost use Rattle.network_model.specs.ElementRule.{KeepsRule};
ghost use Rattle.operator_chains.specs.Standing.{AtChain};
ghost use Rattle.operator_chains.specs.declared.chain.Chain.{Chain};
ghost use Rattle.elements.specs.New.{HasNumbers, IsNew};
ghost use Rattle.elements.specs.Suiting.{Suits};
ghost use Rattle.element_laws.specs.Made.{IsMade};
ghost use Rattle.element_laws.specs.Putting.{TookProper};
ghost use Rattle.element_laws.specs.examples.ChainParts.{IsUnused, filters, itself, merger_part, one_row, part_at, replica_part, splitter_part};

/// A splitter, replicas and a merger of a checked program, its plan and the width 2, and a row that the splitter sends.
pub fn parts_on_literals()
    ensures program { Keeps chain × IsPlan (graph_of chain) filters }
    ensures splitter { IsMade itself IsUnused chain filters 2 1 splitter_part }
    ensures replica { (operators : Chain Operator) → AtChain itself IsUnused operators (map start (ops_of (graph_of chain) (1 ∷ 2 ∷ [])))
        → IsMade itself IsUnused chain filters 2 2 (replica_part operators) }
    ensures merger { IsMade itself IsUnused chain filters 2 4 merger_part }
    ensures fits { IsNew itself IsUnused (part_at 1) splitter_part × HasNumbers (part_at 1) splitter_part
        × (length splitter_part.fans < 2 ^ 32) × Suits (part_at 1) (numbers ∷ []) }
    ensures keeps { KeepsRule (part_at 1) one_row }
    ensures takes { TookProper (part_at 1) (numbers ∷ []) one_row.kept }
    ensures puts { IsProper numbers (on_output 0 one_row.pushed) }
{}
