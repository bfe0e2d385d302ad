//! What programs are once they are expanded and checked.
ghost use Rattle.std.specs.Prelude.{◌≡◌, [], ◌∷◌, Some, None, Ok, IsOkAnd, codes};
ghost use Rattle.spl_tree.specs.declared.graph.OpKind.TheVariants as O;
ghost use Rattle.language_model.specs.declared.scope.CheckError.TheVariants as E;
ghost use Rattle.spl_tree.specs.Tokens.{tokens};
ghost use Rattle.spl_tree.specs.Units.{SpellsProgram};
ghost use Rattle.language_model.specs.Checking.{checked};
ghost use Rattle.language_model.specs.Flat.{IsFlat};
ghost use Rattle.checked_literals.specs.examples.Composed.{composed, composed_graph, composed_checked};
ghost use Rattle.checked_literals.specs.examples.Counted.{counted, counted_graph, counted_checked};
ghost use Rattle.checked_literals.specs.examples.Filtered.{filtered, filtered_text, filtered_graph, filtered_checked};
ghost use Rattle.checked_literals.specs.examples.Joined.{joined, joined_graph, joined_checked};
ghost use Rattle.checked_literals.specs.examples.Parted.{parted, parted_graph, parted_checked};
ghost use Rattle.checked_literals.specs.examples.Refused.{IsRefused, graph_of, graph_with, refusal, sink_first, sink_first_graph, with_function, with_middle, another_type, another_width, break_alone, constant_changed, list_row, no_attribute, no_port, no_position, no_value, no_window, other_config, other_logic, other_state, other_window, two_inputs, unknown_name, unknown_parameter, unknown_without_position, config_without_index, no_group_attribute, partition_alone};
ghost use Rattle.checked_literals.specs.examples.Summed.{summed, summed_graph, summed_checked};

/// A source, a filter and a sink: the tree that their text spells, its graph, and the types and the
/// clauses of each operator.
pub fn filter_is_checked()
    ensures spells { IsOkAnd (tokens filtered_text) (λ ts. SpellsProgram filtered ts.list) }
    ensures flat { IsFlat filtered [] (Ok filtered_graph) }
    ensures checked { checked filtered filtered_graph ≡ Ok filtered_checked }
{}

/// A Custom whose handler changes two variables of its state, declares one, and submits a tuple whose
/// fields don't stand in the order of the attributes.
pub fn custom_is_checked()
    ensures flat { IsFlat counted [] (Ok counted_graph) }
    ensures checked { checked counted counted_graph ≡ Ok counted_checked }
{}

/// An Aggregate over a window for each value of an attribute, with groups by two others. Attributes of
/// the output are assigned in another order than theirs, and two of them aren't.
pub fn aggregate_is_checked()
    ensures flat { IsFlat summed [] (Ok summed_graph) }
    ensures checked { checked summed summed_graph ≡ Ok summed_checked }
{}

/// A Join whose windows don't stand in the order of its ports. Attributes of the output are taken from
/// both ports. The operators don't stand in the order in which they read each other.
pub fn join_is_checked()
    ensures flat { IsFlat joined [] (Ok joined_graph) }
    ensures checked { checked joined joined_graph ≡ Ok joined_checked }
{}

/// A composite with `$` parameters that is invoked twice. Types are given by the names of a type and of
/// streams, and an attribute of an output has the value of a function.
pub fn composite_is_checked()
    ensures flat { IsFlat composed [] (Ok composed_graph) }
    ensures checked { checked composed composed_graph ≡ Ok composed_checked }
{}

/// A Punctor, a Split, a Union and a Custom of two ports, whose handlers see their own port alone, and in
/// which a local variable has the name of one of the state, and one of the state that of an attribute.
pub fn ports_are_checked()
    ensures flat { IsFlat parted [] (Ok parted_graph) }
    ensures checked { checked parted parted_graph ≡ Ok parted_checked }
{}

/// Programs that are refused: the first program with another operator in the middle, each by the rule
/// that its clause is named for. Of several refusals the first counts: that of a function, and then
/// those of operators in the order of the text.
pub fn programs_are_refused()
    ensures ports { IsRefused (with_middle two_inputs) (graph_of O.Filter ((0 ∷ []) ∷ (0 ∷ []) ∷ [])) (refusal E.PortCount 108 None) }
    ensures types { IsRefused (with_middle another_type) (graph_with O.Filter) (refusal E.Mismatch 115 None) }
    ensures rows { IsRefused (with_middle list_row) (graph_with O.Custom) (refusal E.NoTextForm 177 None) }
    ensures unknown { IsRefused (with_middle unknown_name) (graph_with O.Filter) (refusal E.Unknown 158 (Some (codes "cost"))) }
    ensures width { IsRefused (with_middle another_width) (graph_with O.Filter) (refusal E.Mismatch 166 None) }
    ensures parameter { IsRefused (with_middle unknown_parameter) (graph_with O.Filter) (refusal E.ExtraParameter 150 (Some (codes "index"))) }
    ensures missing { IsRefused (with_middle no_position) (graph_with O.Punctor) (refusal E.MissingParameter 108 (Some (codes "position"))) }
    ensures window { IsRefused (with_middle no_window) (graph_with O.Aggregate) (refusal E.BadWindow 108 None) }
    ensures partition { IsRefused (with_middle partition_alone) (graph_with O.Aggregate) (refusal E.ExtraParameter 183 (Some (codes "partitionBy"))) }
    ensures group { IsRefused (with_middle no_group_attribute) (graph_with O.Aggregate) (refusal E.BadOutput 187 None) }
    ensures config { IsRefused (with_middle other_config) (graph_with O.Filter) (refusal E.LeftOut 190 (Some (codes "host"))) }
    ensures extra_window { IsRefused (with_middle other_window) (graph_with O.Filter) (refusal E.ExtraParameter 144 (Some (codes "window"))) }
    ensures value { IsRefused (with_middle no_value) (graph_with O.Functor) (refusal E.BadOutput 108 None) }
    ensures attribute { IsRefused (with_middle no_attribute) (graph_with O.Functor) (refusal E.BadOutput 155 None) }
    ensures logic { IsRefused (with_middle other_logic) (graph_with O.Filter) (refusal E.LeftOut 144 (Some (codes "logic"))) }
    ensures state { IsRefused (with_middle other_state) (graph_with O.Custom) (refusal E.LeftOut 167 (Some (codes "state"))) }
    ensures mutable { IsRefused (with_middle constant_changed) (graph_with O.Custom) (refusal E.NotMutable 184 None) }
    ensures statement { IsRefused (with_middle break_alone) (graph_with O.Custom) (refusal E.WrongCall 163 None) }
    ensures submit { IsRefused (with_middle no_port) (graph_with O.Custom) (refusal E.Unknown 187 (Some (codes "C"))) }
    ensures types_first { IsRefused (with_middle unknown_without_position) (graph_with O.Punctor) (refusal E.Unknown 164 (Some (codes "cost"))) }
    ensures config_first { IsRefused (with_middle config_without_index) (graph_with O.Split) (refusal E.LeftOut 150 (Some (codes "host"))) }
    ensures function { IsRefused (with_function unknown_name) (graph_with O.Filter) (refusal E.NoReturn 306 (Some (codes "f"))) }
    ensures in_text { IsRefused (sink_first unknown_name) sink_first_graph (refusal E.MissingParameter 177 (Some (codes "file"))) }
{}
