//! What holds of the groups of a window's content.
ghost use Rattle.std.specs.Prelude.{◌≡◌, ◌++◌, [], ◌∷◌, pos};
ghost use Rattle.stream_model.specs.Groups.{groups};
ghost use Rattle.stream_model.specs.GroupLaws.{AscendingLaw, GroupLaw, MemberLaw, MappedGroupsLaw, KeyBehindLaw};
ghost use Rattle.stream_model.specs.examples.WindowExamples.{number, a_with, b_with, key_a, key_b};

/// The groups of tuples have ascending keys, each once, and no group is empty. Each tuple stands in the
/// group of its own key, in the order of the tuples, and in no other one. Where mapped tuples keep their
/// keys, their groups are mapped. They keep them where values are added after those of a tuple that has all
/// places of its key.
pub fn groups_law()
    ensures ascending { AscendingLaw }
    ensures group { GroupLaw }
    ensures member { MemberLaw }
    ensures mapped { MappedGroupsLaw }
    ensures behind { KeyBehindLaw }
{}

/// Groups of some tuples.
pub fn groups_on_literals()
    ensures by_text { groups (0 ∷ []) (b_with (pos 1) ∷ a_with (pos 2) ∷ b_with (pos 0) ∷ [])
        ≡ (key_a, a_with (pos 2) ∷ []) ∷ (key_b, b_with (pos 1) ∷ b_with (pos 0) ∷ []) ∷ [] }
    ensures order_of_places { groups (1 ∷ 0 ∷ []) (a_with (pos 2) ∷ b_with (pos 1) ∷ [])
        ≡ (number (pos 1) ++ key_b, b_with (pos 1) ∷ []) ∷ (number (pos 2) ++ key_a, a_with (pos 2) ∷ []) ∷ [] }
    ensures without_places { groups [] (b_with (pos 1) ∷ a_with (pos 2) ∷ []) ≡ ([], b_with (pos 1) ∷ a_with (pos 2) ∷ []) ∷ [] }
    ensures empty { groups [] [] ≡ [] }
{}
