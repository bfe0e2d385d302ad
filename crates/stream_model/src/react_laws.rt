//! What operators of each kind give.
ghost use Rattle.std.specs.Prelude.{◌≡◌, [], ◌∷◌, Some, None, pos, negsuc, codes};
ghost use Rattle.spl_value.specs.declared.item.FaultKind.TheVariants as K;
ghost use Rattle.spl_value.specs.declared.item.Item.TheVariants as I;
ghost use Rattle.language_model.specs.declared.checked.Position.TheVariants as P;
ghost use Rattle.language_model.specs.declared.checked.WindowRule.TheVariants as W;
ghost use Rattle.stream_model.specs.Stream.{came};
ghost use Rattle.stream_model.specs.Bodies.{output};
ghost use Rattle.stream_model.specs.React.{react};
ghost use Rattle.stream_model.specs.Stages.{out};
ghost use Rattle.stream_model.specs.examples.Reacting.{after, numbers, row, fault, gives_items, passing_numbers, dividing, small_rest, adding, punctor, split, summing, tripling, late_fault, summing_two, union, sums, sums_by_time, counts_near, grouped, dividing_sums, joined};

/// Filters, Functors, Punctors and Splits.
pub fn one_input_on_literals()
    ensures filter { gives_items passing_numbers 0 (numbers (pos 5 ∷ []) ∷ numbers (pos 11 ∷ []) ∷ I.Window ∷ I.Final ∷ []) ≡ numbers (pos 11 ∷ []) ∷ I.Window ∷ I.Final ∷ [] }
    ensures functor_faults { gives_items (dividing None) 0 (numbers (pos 10 ∷ []) ∷ numbers (pos 20 ∷ []) ∷ numbers (pos 0 ∷ []) ∷ numbers (pos 5 ∷ []) ∷ [])
        ≡ numbers (pos 10 ∷ []) ∷ numbers (pos 5 ∷ []) ∷ fault K.DivZero ∷ [] }
    ensures functor_filters { gives_items (dividing (Some small_rest)) 0 (numbers (pos 5 ∷ []) ∷ numbers (pos 4 ∷ []) ∷ I.Window ∷ I.Final ∷ [])
        ≡ numbers (pos 20 ∷ []) ∷ I.Window ∷ I.Final ∷ [] }
    ensures functor_wraps { gives_items adding 0 (numbers (pos 127 ∷ pos 1 ∷ []) ∷ []) ≡ numbers (negsuc 127 ∷ []) ∷ [] }
    ensures misfit { gives_items (dividing None) 0 (I.Tuple [] ∷ []) ≡ fault K.BadRow ∷ [] }
    ensures marker_before { gives_items (punctor P.Before) 0 (numbers (pos 1 ∷ []) ∷ numbers (pos 0 ∷ []) ∷ I.Window ∷ [])
        ≡ numbers (pos 1 ∷ []) ∷ I.Window ∷ numbers (pos 0 ∷ []) ∷ I.Window ∷ [] }
    ensures marker_after { gives_items (punctor P.After) 0 (numbers (pos 0 ∷ []) ∷ I.Final ∷ []) ≡ numbers (pos 0 ∷ []) ∷ I.Window ∷ I.Final ∷ [] }
    ensures split_first { gives_items split 0 (numbers (negsuc 0 ∷ []) ∷ numbers (pos 5 ∷ []) ∷ numbers (pos 4 ∷ []) ∷ I.Window ∷ I.Final ∷ [])
        ≡ numbers (pos 4 ∷ []) ∷ I.Window ∷ I.Final ∷ [] }
    ensures split_second { gives_items split 1 (numbers (negsuc 0 ∷ []) ∷ numbers (pos 5 ∷ []) ∷ numbers (pos 4 ∷ []) ∷ I.Window ∷ I.Final ∷ [])
        ≡ numbers (pos 5 ∷ []) ∷ I.Window ∷ I.Final ∷ [] }
{}

/// Customs, with their state, at tuples, window markers and the ends of ports.
pub fn customs_on_literals()
    ensures state { gives_items summing 0 (numbers (pos 3 ∷ []) ∷ numbers (pos 4 ∷ []) ∷ []) ≡ numbers (pos 3 ∷ []) ∷ numbers (pos 7 ∷ []) ∷ [] }
    ensures at_window_marker { react summing (after (numbers (pos 3 ∷ []) ∷ [])) (came 0 I.Window) ≡ output 0 I.Window ∷ [] }
    ensures at_end { react summing (after (numbers (pos 3 ∷ []) ∷ [])) (came 0 I.Final) ≡ output 0 (numbers (pos 3 ∷ [])) ∷ output 0 I.Final ∷ [] }
    ensures in_order_of_calls { gives_items tripling 0 (numbers (pos 1 ∷ []) ∷ I.Window ∷ numbers (pos 2 ∷ []) ∷ [])
        ≡ numbers (pos 1 ∷ []) ∷ numbers (pos 1 ∷ []) ∷ numbers (pos 1 ∷ []) ∷ numbers (pos 2 ∷ []) ∷ numbers (pos 2 ∷ []) ∷ numbers (pos 2 ∷ []) ∷ [] }
    ensures nothing_at_fault { gives_items late_fault 0 (numbers (pos 50 ∷ []) ∷ numbers (pos 0 ∷ []) ∷ numbers (pos 1 ∷ []) ∷ [])
        ≡ numbers (pos 5 ∷ []) ∷ numbers (pos 2 ∷ []) ∷ fault K.DivZero ∷ [] }
    ensures end_of_port { react summing_two (came 0 I.Final ∷ came 2 (numbers (pos 2 ∷ [])) ∷ came 1 (numbers (pos 1 ∷ [])) ∷ []) (came 2 I.Final)
        ≡ output 0 (numbers (pos 3 ∷ [])) ∷ [] }
    ensures end_of_both { react summing_two (came 0 I.Final ∷ came 2 I.Final ∷ []) (came 1 I.Final) ≡ output 0 I.Final ∷ [] }
{}

/// A Union of two ports.
pub fn union_on_literals()
    ensures by_name { out union 0 (came 1 (numbers (pos 7 ∷ pos 8 ∷ [])) ∷ came 0 (numbers (pos 1 ∷ [])) ∷ came 0 I.Window ∷ came 0 I.Final ∷ came 1 I.Final ∷ [])
        ≡ numbers (pos 8 ∷ []) ∷ numbers (pos 1 ∷ []) ∷ I.Final ∷ [] }
{}

/// Aggregates over windows of each rule, with groups, and with faults of arguments.
pub fn aggregates_on_literals()
    ensures tumbling_count { react (sums (W.TumblingCount 2)) (after (row (codes "a") (pos 1 ∷ []) ∷ row (codes "b") (pos 2 ∷ []) ∷ [])) (came 0 (row (codes "a") (pos 3 ∷ [])))
        ≡ output 0 (row (codes "a") (pos 4 ∷ [])) ∷ output 0 I.Window ∷ [] }
    ensures begun_anew { react (sums (W.TumblingCount 2)) (after (row (codes "a") (pos 1 ∷ []) ∷ row (codes "a") (pos 3 ∷ []) ∷ [])) (came 0 (row (codes "a") (pos 4 ∷ []))) ≡ [] }
    ensures other_key { react (sums (W.TumblingCount 2)) (after (row (codes "b") (pos 2 ∷ []) ∷ I.Window ∷ row (codes "a") (pos 4 ∷ []) ∷ [])) (came 0 (row (codes "b") (pos 5 ∷ [])))
        ≡ output 0 (row (codes "b") (pos 7 ∷ [])) ∷ output 0 I.Window ∷ [] }
    ensures markers_not_passed { react (sums (W.TumblingCount 2)) (after (row (codes "b") (pos 2 ∷ []) ∷ [])) (came 0 I.Window) ≡ [] }
    ensures sliding_count { react (sums (W.SlidingCount 2 (Some 1))) (after (row (codes "a") (pos 1 ∷ []) ∷ row (codes "a") (pos 2 ∷ []) ∷ row (codes "b") (pos 9 ∷ []) ∷ []))
        (came 0 (row (codes "a") (pos 3 ∷ []))) ≡ output 0 (row (codes "a") (pos 5 ∷ [])) ∷ [] }
    ensures not_full { gives_items (sums (W.SlidingCount 3 (Some 1))) 0 (row (codes "a") (pos 1 ∷ []) ∷ I.Window ∷ []) ≡ row (codes "a") (pos 1 ∷ []) ∷ I.Window ∷ [] }
    ensures by_markers { react (sums W.TumblingPunct) (after (row (codes "b") (pos 1 ∷ []) ∷ row (codes "a") (pos 2 ∷ []) ∷ [])) (came 0 I.Window)
        ≡ output 0 (row (codes "a") (pos 2 ∷ [])) ∷ output 0 I.Window ∷ output 0 (row (codes "b") (pos 1 ∷ [])) ∷ output 0 I.Window ∷ [] }
    ensures nothing_at_end { gives_items (sums W.TumblingPunct) 0 (I.Window ∷ row (codes "a") (pos 5 ∷ []) ∷ I.Final ∷ []) ≡ I.Final ∷ [] }
    ensures tumbling_delta { gives_items sums_by_time 0 (numbers (pos 0 ∷ pos 1 ∷ []) ∷ numbers (pos 10 ∷ pos 2 ∷ []) ∷ numbers (pos 11 ∷ pos 3 ∷ []) ∷ I.Final ∷ [])
        ≡ numbers (pos 3 ∷ []) ∷ I.Window ∷ I.Final ∷ [] }
    ensures sliding_delta { gives_items counts_near 0 (numbers (pos 0 ∷ []) ∷ numbers (pos 5 ∷ []) ∷ numbers (pos 6 ∷ []) ∷ [])
        ≡ numbers (pos 1 ∷ []) ∷ numbers (pos 2 ∷ []) ∷ numbers (pos 2 ∷ []) ∷ [] }
    ensures groups { gives_items grouped 0 (row (codes "b") (pos 7 ∷ []) ∷ row (codes "a") (pos 2 ∷ []) ∷ row (codes "b") (pos 3 ∷ []) ∷ [])
        ≡ row (codes "a") (pos 1 ∷ pos 2 ∷ pos 2 ∷ pos 2 ∷ []) ∷ row (codes "b") (pos 2 ∷ pos 3 ∷ pos 7 ∷ pos 3 ∷ []) ∷ I.Window ∷ [] }
    ensures sum_wraps { gives_items dividing_sums 0 (numbers (pos 1 ∷ []) ∷ numbers (pos 2 ∷ []) ∷ numbers (pos 4 ∷ []) ∷ [])
        ≡ numbers (negsuc 80 ∷ []) ∷ I.Window ∷ [] }
    ensures argument_faults { gives_items dividing_sums 0 (numbers (pos 1 ∷ []) ∷ numbers (pos 0 ∷ []) ∷ numbers (pos 4 ∷ []) ∷ []) ≡ fault K.DivZero ∷ [] }
{}

/// A Join under an arrival record.
pub fn join_on_literals()
    ensures matches { joined (row (codes "a") [] ∷ I.Window ∷ I.Final ∷ []) (row (codes "a") (pos 1 ∷ []) ∷ row (codes "a") (pos 1 ∷ []) ∷ row (codes "b") (pos 5 ∷ []) ∷ I.Window ∷ I.Final ∷ [])
        (1 ∷ 1 ∷ 0 ∷ 1 ∷ 0 ∷ 0 ∷ 1 ∷ 1 ∷ [])
        ≡ row (codes "a") (pos 1 ∷ []) ∷ row (codes "a") (pos 1 ∷ []) ∷ I.Final ∷ [] }
    ensures nothing_kept { joined (row (codes "a") [] ∷ I.Final ∷ []) (row (codes "a") (pos 1 ∷ []) ∷ I.Final ∷ []) (0 ∷ 1 ∷ 0 ∷ 1 ∷ []) ≡ I.Final ∷ [] }
    ensures evicted { joined (row (codes "a") [] ∷ I.Final ∷ []) (row (codes "a") (pos 1 ∷ []) ∷ row (codes "b") (pos 2 ∷ []) ∷ row (codes "a") (pos 3 ∷ []) ∷ I.Final ∷ [])
        (1 ∷ 1 ∷ 1 ∷ 1 ∷ 0 ∷ 0 ∷ [])
        ≡ row (codes "a") (pos 3 ∷ []) ∷ I.Final ∷ [] }
{}
