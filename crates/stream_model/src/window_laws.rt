//! What holds of windows.
ghost use Rattle.std.specs.Prelude.{◌≡◌, ◌==◌, ◌++◌, [], ◌∷◌, true, false, pos, negsuc, Some, None};
ghost use Rattle.spl_value.specs.declared.item.Item.TheVariants as I;
ghost use Rattle.language_model.specs.declared.checked.WindowRule.TheVariants as W;
ghost use Rattle.stream_model.specs.Stream.{came};
ghost use Rattle.stream_model.specs.Windows.{partition_key, window_events, content, flushed_after, Insert, Mark, Silent, Flushes, Triggers, fired_at, integer_at};
ghost use Rattle.stream_model.specs.parts.Windows.{tuple_fires};
ghost use Rattle.stream_model.specs.PortEvents.{port_items, port_events};
ghost use Rattle.stream_model.specs.WindowLaws.{TumblingCountLaw, SlidingCountLaw, TumblingDeltaLaw, SlidingDeltaLaw, TumblingCountInsert, TumblingDeltaInsert, TumblingPunctInsert, SlidingCountInsert, SlidingDeltaInsert, PortLaw, OneKeyLaw, OwnKeyLaw, SameKeyLaw, EmptiedLaw, PassingLaw, FlushedBehindLaw, FiredLaw, MappedLaw, MappedFiringLaw, BehindLaw};
ghost use Rattle.stream_model.specs.examples.WindowExamples.{number, a_with, b_with, key_a, key_b, by_text, of_all, two_ports};

/// A window of n tuples holds the last `t mod n` of t tuples, a sliding one the last n or all. A tumbling
/// delta, once a tuple has come, holds the last start and what came after it. A sliding one holds each
/// tuple that no later one exceeds by more than the limit.
pub fn window_contents_law()
    ensures tumbling_count { TumblingCountLaw }
    ensures sliding_count { SlidingCountLaw }
    ensures tumbling_delta { TumblingDeltaLaw }
    ensures sliding_delta { SlidingDeltaLaw }
{}

/// What one tuple more makes of the content of its key, and what it fires, rule by rule.
pub fn window_insert_law()
    ensures tumbling_count { TumblingCountInsert }
    ensures tumbling_delta { TumblingDeltaInsert }
    ensures tumbling_punct { TumblingPunctInsert }
    ensures sliding_count { SlidingCountInsert }
    ensures sliding_delta { SlidingDeltaInsert }
{}

/// The tuples with a key are those of the port that have it, and all where the window isn't partitioned.
/// A content depends on them and on markers alone, and where markers don't flush, on them alone. Keys are
/// the same exactly where they are equal.
pub fn window_keys_law()
    ensures port { PortLaw }
    ensures one { OneKeyLaw }
    ensures own { OwnKeyLaw }
    ensures same { SameKeyLaw }
{}

/// Where markers flush, one flushes the contents that aren't empty, by ascending key, each key once, and
/// leaves them empty. Where markers don't flush, they change nothing. Tuples and markers fire, and final
/// markers and faults don't.
pub fn window_markers_law()
    ensures flushed_after { FlushedBehindLaw }
    ensures emptied { EmptiedLaw }
    ensures passing { PassingLaw }
    ensures fired { FiredLaw }
{}

/// What a window of mapped tuples holds, fires and flushes is what it does of the tuples, mapped, where
/// the attribute of its rule stays. It stays where values are added after those of a tuple that has it.
pub fn mapped_windows_law()
    ensures mapped { MappedLaw }
    ensures firing { MappedFiringLaw }
    ensures behind { BehindLaw }
{}

/// Windows of some histories.
pub fn windows_on_literals()
    ensures flushed_at_second { tuple_fires (W.TumblingCount 2) key_a (a_with (pos 3)) (by_text (a_with (pos 1) ∷ b_with (pos 2) ∷ []))
        ≡ Flushes (a_with (pos 1) ∷ a_with (pos 3) ∷ []) }
    ensures begun_anew { content (W.TumblingCount 2) key_a (by_text (a_with (pos 1) ∷ b_with (pos 2) ∷ a_with (pos 3) ∷ a_with (pos 4) ∷ []))
        ≡ a_with (pos 4) ∷ [] }
    ensures empty_when_full { content (W.TumblingCount 2) key_b (by_text (a_with (pos 1) ∷ b_with (pos 2) ∷ a_with (pos 3) ∷ b_with (pos 5) ∷ []))
        ≡ [] }
    ensures last_three { tuple_fires (W.SlidingCount 3 (Some 1)) key_a (a_with (pos 4)) (by_text (a_with (pos 1) ∷ a_with (pos 2) ∷ b_with (pos 9) ∷ a_with (pos 3) ∷ []))
        ≡ Triggers (a_with (pos 2) ∷ a_with (pos 3) ∷ a_with (pos 4) ∷ []) }
    ensures not_full { tuple_fires (W.SlidingCount 3 (Some 2)) [] (number (pos 2)) (of_all (number (pos 1) ∷ []))
        ≡ Triggers (number (pos 1) ∷ number (pos 2) ∷ []) }
    ensures not_triggered { tuple_fires (W.SlidingCount 3 (Some 2)) [] (number (pos 3)) (of_all (number (pos 1) ∷ number (pos 2) ∷ [])) ≡ Silent }
    ensures no_trigger { tuple_fires (W.SlidingCount 3 None) [] (number (pos 2)) (of_all (number (pos 1) ∷ [])) ≡ Silent }
    ensures nothing_kept { content (W.SlidingCount 0 None) [] (of_all (number (pos 1) ∷ number (pos 2) ∷ [])) ≡ [] }
    ensures limit_reached { tuple_fires (W.TumblingDelta 0 (pos 10)) [] (number (pos 10)) (of_all (number (pos 0) ∷ [])) ≡ Silent }
    ensures limit_exceeded { tuple_fires (W.TumblingDelta 0 (pos 10)) [] (number (pos 11)) (of_all (number (pos 0) ∷ number (pos 10) ∷ []))
        ≡ Flushes (number (pos 0) ∷ number (pos 10) ∷ []) }
    ensures new_start { content (W.TumblingDelta 0 (pos 10)) [] (of_all (number (pos 0) ∷ number (pos 10) ∷ number (pos 11) ∷ []))
        ≡ number (pos 11) ∷ [] }
    ensures from_start { tuple_fires (W.TumblingDelta 0 (pos 10)) [] (number (pos 5)) (of_all (number (pos 0) ∷ number (negsuc 19) ∷ [])) ≡ Silent }
    ensures not_wrapped { tuple_fires (W.TumblingDelta 0 (pos 0)) [] (number (pos 0x7fffffffffffffff)) (of_all (number (negsuc 0x7fffffffffffffff) ∷ []))
        ≡ Flushes (number (negsuc 0x7fffffffffffffff) ∷ []) }
    ensures within_limit { tuple_fires (W.SlidingDelta 0 (pos 5) (Some 1)) [] (number (pos 5)) (of_all (number (pos 0) ∷ []))
        ≡ Triggers (number (pos 0) ∷ number (pos 5) ∷ []) }
    ensures evicted { tuple_fires (W.SlidingDelta 0 (pos 5) (Some 1)) [] (number (pos 6)) (of_all (number (pos 0) ∷ number (pos 5) ∷ []))
        ≡ Triggers (number (pos 5) ∷ number (pos 6) ∷ []) }
    ensures evicted_between { tuple_fires (W.SlidingDelta 0 (pos 5) (Some 1)) [] (number (pos 7)) (of_all (number (pos 10) ∷ number (pos 0) ∷ []))
        ≡ Triggers (number (pos 10) ∷ number (pos 7) ∷ []) }
    ensures late { content (W.SlidingDelta 0 (pos 5) (Some 1)) [] (of_all (number (pos 6) ∷ number (pos 0) ∷ []))
        ≡ number (pos 6) ∷ number (pos 0) ∷ [] }
    ensures by_marker { flushed_after W.TumblingPunct (by_text (b_with (pos 1) ∷ a_with (pos 2) ∷ b_with (pos 0) ∷ []))
        ≡ (key_a, a_with (pos 2) ∷ []) ∷ (key_b, b_with (pos 1) ∷ b_with (pos 0) ∷ []) ∷ [] }
    ensures by_next_marker { flushed_after W.TumblingPunct (Insert key_a (a_with (pos 5)) ∷ Mark ∷ by_text (b_with (pos 1) ∷ a_with (pos 2) ∷ []))
        ≡ (key_a, a_with (pos 5) ∷ []) ∷ [] }
    ensures nothing_flushed { flushed_after W.TumblingPunct (Mark ∷ by_text (a_with (pos 1) ∷ [])) ≡ [] }
    ensures two_places { flushed_after W.TumblingPunct (window_events (partition_key (record { partitioned = true; rule = W.TumblingPunct }) (1 ∷ 0 ∷ []))
        (I.Tuple (b_with (pos 1)) ∷ I.Tuple (a_with (pos 2)) ∷ I.Tuple (a_with (pos 1)) ∷ []))
        ≡ (number (pos 1) ++ key_a, a_with (pos 1) ∷ []) ∷ (number (pos 1) ++ key_b, b_with (pos 1) ∷ []) ∷ (number (pos 2) ++ key_a, a_with (pos 2) ∷ []) ∷ [] }
    ensures tuple_of_port { fired_at (W.TumblingCount 2) (partition_key (record { partitioned = true; rule = W.TumblingCount 2 }) (0 ∷ []))
        (I.Tuple (a_with (pos 3))) (I.Window ∷ I.Tuple (b_with (pos 2)) ∷ I.Tuple (a_with (pos 1)) ∷ [])
        ≡ (a_with (pos 1) ∷ a_with (pos 3) ∷ []) ∷ [] }
    ensures marker_of_port { fired_at W.TumblingPunct (partition_key (record { partitioned = true; rule = W.TumblingPunct }) (0 ∷ []))
        I.Window (I.Tuple (b_with (pos 0)) ∷ I.Tuple (a_with (pos 2)) ∷ I.Tuple (b_with (pos 1)) ∷ [])
        ≡ (a_with (pos 2) ∷ []) ∷ (b_with (pos 1) ∷ b_with (pos 0) ∷ []) ∷ [] }
    ensures final_behind_marker { fired_at W.TumblingPunct (λ t. []) I.Final (I.Window ∷ I.Tuple (number (pos 1)) ∷ []) ≡ [] }
    ensures final_behind_flush { fired_at (W.TumblingCount 2) (λ t. []) I.Final (I.Tuple (number (pos 2)) ∷ I.Tuple (number (pos 1)) ∷ []) ≡ [] }
    ensures items_of_two_streams { port_items 0 (port_events two_ports
        (came 1 (I.Tuple (number (pos 3))) ∷ came 2 (I.Tuple (number (pos 7))) ∷ came 0 I.Final ∷ came 0 (I.Tuple (number (pos 1))) ∷ []))
        ≡ I.Tuple (number (pos 3)) ∷ I.Tuple (number (pos 1)) ∷ [] }
    ensures end_of_port { port_events two_ports (came 1 I.Final ∷ came 2 I.Final ∷ came 0 I.Final ∷ []) ≡ came 0 I.Final ∷ came 1 I.Final ∷ [] }
    ensures window_of_two_streams { content (W.SlidingCount 2 None) [] (window_events (λ t. []) (port_items 0 (port_events two_ports
        (came 1 (I.Tuple (number (pos 3))) ∷ came 2 (I.Tuple (number (pos 7))) ∷ came 0 (I.Tuple (number (pos 2))) ∷ came 1 (I.Tuple (number (pos 1))) ∷ []))))
        ≡ number (pos 2) ∷ number (pos 3) ∷ [] }
    ensures full_by_two_streams { fired_at (W.TumblingCount 2) (λ t. []) (I.Tuple (number (pos 3)))
        (port_items 0 (port_events two_ports (came 2 (I.Tuple (number (pos 7))) ∷ came 0 (I.Tuple (number (pos 1))) ∷ [])))
        ≡ (number (pos 1) ∷ number (pos 3) ∷ []) ∷ [] }
    ensures no_attribute { integer_at 1 (number (pos 5)) ≡ pos 0 }
    ensures no_integer { integer_at 0 (a_with (pos 5)) ≡ pos 0 }
{}
