//! What holds of the texts of arrival records.
ghost use Rattle.std.specs.Prelude.{◌≡◌, [], ◌∷◌, codes};
ghost use Rattle.stream_model.specs.declared.record.Arrivals.{Arrivals};
ghost use Rattle.arrival_format.specs.ArrivalTexts.{Spells, arrivals_text};
ghost use Rattle.arrival_format.specs.FormatLaws.{OneRecordLaw, ReadBackLaw, SomeReadLaw, WholeRecordLaw};
ghost use Rattle.arrival_format.specs.examples.TwoStreams.{of_union, two_streams};

/// Bytes spell at most one record: one, or none. The text of a record that fits the graph is read back, where it
/// isn't too long. A record fits where its lists are whole.
pub fn format_law()
    ensures one { OneRecordLaw }
    ensures some { SomeReadLaw }
    ensures read_back { ReadBackLaw }
    ensures whole { WholeRecordLaw }
{}

/// Texts of the record of a Union of two streams.
pub fn texts_on_literals()
    ensures text { arrivals_text two_streams (of_union (0 ∷ 1 ∷ 0 ∷ 0 ∷ 0 ∷ 1 ∷ 1 ∷ []))
        ≡ codes "arrivals 1\nU 0 1 0 0 0 1 1\n" }
    ensures spelled { Spells two_streams (codes "arrivals 1\nU 0 1 0 0 0 1 1\n")
        (of_union (0 ∷ 1 ∷ 0 ∷ 0 ∷ 0 ∷ 1 ∷ 1 ∷ [])) }
    ensures no_number { (arrivals : Arrivals)
        → Spells two_streams (codes "arrivals 1\nU\n") arrivals → ⊥ }
    ensures two_blanks { (arrivals : Arrivals)
        → Spells two_streams (codes "arrivals 1\nU 0  1\n") arrivals → ⊥ }
    ensures third_input { (arrivals : Arrivals)
        → Spells two_streams (codes "arrivals 1\nU 2\n") arrivals → ⊥ }
{}
