//! What holds of arrival records.
ghost use Rattle.std.specs.Prelude.{◌≡◌, [], ◌∷◌, true, false};
ghost use Rattle.stream_model.specs.Stream.{came};
ghost use Rattle.stream_model.specs.Meaning.{arrive};
ghost use Rattle.stream_model.specs.Records.{is_whole, input_after_input};
ghost use Rattle.stream_model.specs.RecordLaws.{EntriesLaw, ItemsLaw, NextItemLaw, NothingLeftLaw, WholeLaw, UsedUpLaw, OneAfterAnotherLaw};
ghost use Rattle.stream_model.specs.examples.RecordExamples.{two_streams, one_stream_each, faulting, tuple, two_rows, one_row, bad_row, lists_of};

/// The events that a record takes are those of its entries, each the next item of the list that it names,
/// up to an entry whose list is used up. A record is whole where each entry names an input and finds an
/// item, and the operator ends at the last and not before. Where it ends by a final marker, it uses up the
/// closed list of each input. The record that takes input after input until an operator with inputs ends
/// is whole for closed lists.
pub fn records_law()
    ensures entries { EntriesLaw }
    ensures items { ItemsLaw }
    ensures next_item { NextItemLaw }
    ensures nothing_left { NothingLeftLaw }
    ensures whole { WholeLaw }
    ensures used_up { UsedUpLaw }
    ensures one_after_another { OneAfterAnotherLaw }
{}

/// Records of operators with two inputs.
pub fn records_on_literals()
    ensures taken { arrive (lists_of two_rows one_row) (0 ∷ 1 ∷ 0 ∷ []) ≡ came 0 (tuple 1) ∷ came 1 (tuple 3) ∷ came 0 (tuple 2) ∷ [] }
    ensures whole { is_whole two_streams (lists_of two_rows one_row) (0 ∷ 1 ∷ 0 ∷ 0 ∷ 0 ∷ 1 ∷ 1 ∷ []) ≡ true }
    ensures two_ports { is_whole one_stream_each (lists_of two_rows one_row) (1 ∷ 0 ∷ 0 ∷ 1 ∷ 1 ∷ 0 ∷ 0 ∷ []) ≡ true }
    ensures not_ended { is_whole two_streams (lists_of two_rows one_row) (0 ∷ 1 ∷ 0 ∷ 0 ∷ 0 ∷ 1 ∷ []) ≡ false }
    ensures no_item { is_whole two_streams (lists_of two_rows one_row) (0 ∷ 1 ∷ 0 ∷ 0 ∷ 0 ∷ 1 ∷ 1 ∷ 0 ∷ []) ≡ false }
    ensures no_entry { is_whole two_streams (lists_of two_rows one_row) [] ≡ false }
    ensures no_input { is_whole two_streams (λ i. bad_row) (7 ∷ []) ≡ false }
    ensures by_fault { is_whole two_streams (lists_of two_rows bad_row) (0 ∷ 1 ∷ []) ≡ true }
    ensures behind_fault { is_whole two_streams (lists_of two_rows bad_row) (0 ∷ 1 ∷ 0 ∷ []) ≡ false }
    ensures by_own_fault { is_whole faulting (lists_of two_rows one_row) (1 ∷ []) ≡ true }
    ensures behind_own_fault { is_whole faulting (lists_of two_rows one_row) (1 ∷ 0 ∷ []) ≡ false }
    ensures all_of_both { input_after_input two_streams (lists_of two_rows one_row) ≡ 0 ∷ 0 ∷ 0 ∷ 0 ∷ 1 ∷ 1 ∷ 1 ∷ [] }
    ensures all_of_both_whole { is_whole two_streams (lists_of two_rows one_row) (0 ∷ 0 ∷ 0 ∷ 0 ∷ 1 ∷ 1 ∷ 1 ∷ []) ≡ true }
    ensures up_to_fault { input_after_input two_streams (lists_of bad_row one_row) ≡ 0 ∷ [] }
    ensures up_to_own_fault { input_after_input faulting (lists_of two_rows one_row) ≡ 0 ∷ [] }
    ensures up_to_fault_whole { is_whole two_streams (lists_of bad_row one_row) (0 ∷ []) ≡ true }
{}
