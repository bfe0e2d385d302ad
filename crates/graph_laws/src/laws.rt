//! Laws of the definitions.
ghost use Rattle.std.specs.Prelude.{◌≡◌, [], Some, None, Ok, Err, codes};
ghost use Rattle.spl_tree.specs.Trees.{placed};
ghost use Rattle.language_model.specs.declared.expansion.ExpansionError.TheVariants as E;
ghost use Rattle.language_model.specs.Refusals.{named_refusal};
ghost use Rattle.language_model.specs.Composites.{main_of};
ghost use Rattle.language_model.specs.Declarations.{declared_twice};
ghost use Rattle.language_model.specs.Flat.{flat_from};
ghost use Rattle.language_model.specs.FlatLaws.{ConnectedLaw, MakerLaw, OneFlatLaw, OperatorLaw, TopoLaw, WholeLaw};
ghost use Rattle.language_model.specs.examples.FlatGraphs.{two_types, reversed, unknown_composite, reversed_main, reversed_graph, loop_of_two, only_composite};
ghost use Rattle.language_model.specs.Recursion.{HasNoRecursion, composite_callers};
ghost use Rattle.language_model.specs.Scopes.{at_place};

/// A unit has one answer. Each operator of its graph is one of the unit's, none is left out where no
/// composite reaches itself, and each stream has one maker. The order has each operator once, after
/// those that make what it takes.
pub fn flat_law()
    ensures one { OneFlatLaw }
    ensures operators { OperatorLaw }
    ensures whole { WholeLaw }
    ensures makers { MakerLaw }
    ensures in_order { TopoLaw }
    ensures connected { ConnectedLaw }
{}

/// Some units, and what is found of them: a name that is declared twice, the main composite, the graph of
/// a program in which a composite stands twice and each operator before those that it reads, that none
/// of its composites reaches itself, and two refusals.
pub fn graphs_on_literals()
    ensures none_twice { declared_twice [] ≡ None }
    ensures twice { declared_twice two_types ≡ Some (placed 21 (codes "T")) }
    ensures no_main { main_of [] ≡ None }
    ensures main { main_of reversed ≡ Some 1 }
    ensures acyclic { HasNoRecursion (composite_callers reversed) }
    ensures graph { flat_from reversed [] (at_place 1 reversed_main) ≡ Ok reversed_graph }
    ensures waits { flat_from loop_of_two [] (only_composite loop_of_two) ≡ Err (named_refusal E.Loop (placed 20 (codes "A"))) }
    ensures undeclared { flat_from unknown_composite [] (at_place 0 reversed_main) ≡ Err (named_refusal E.Unknown (placed 318 (codes "P"))) }
{}
