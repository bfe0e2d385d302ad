//! Laws of fusion.
ghost use Rattle.std.specs.Prelude.{◌≡◌, [], ◌∷◌};
ghost use Rattle.pe_fusion.specs.FusionLaws.{ChainLaw, FactsLaw, FitsLaw, FusedPlanned, FusedWired, OrderLaw, PiecesLaw, RegionsLaw, WholeLaw, WiredLaw};
ghost use Rattle.pe_fusion.specs.ShapeLaws.{ElementsLaw};
ghost use Rattle.pe_fusion.specs.Shapes.{groups_of, shape_of};
ghost use Rattle.pe_fusion.specs.examples.TwoRegions.{three_chains, two_branches, two_regions, two_replicas};

/// Operators are fused into pieces, of which each is a chain or a region.
pub fn pieces_law()
    ensures fits { FitsLaw }
    ensures regions { RegionsLaw }
    ensures chain { ChainLaw }
    ensures pieces { PiecesLaw }
    ensures whole { WholeLaw }
{}

/// An operator outside regions joins the piece of its producer exactly where four facts hold, and pieces stand in
/// the order of their first operators.
pub fn facts_law()
    ensures facts { FactsLaw }
    ensures order { OrderLaw }
{}

/// The network of the pieces runs the graph, and its elements are those of the shape.
pub fn wired_law()
    ensures wired { WiredLaw }
    ensures fused { FusedWired }
    ensures planned { FusedPlanned }
    ensures elements { ElementsLaw }
{}

/// Shapes of a graph with two regions, and which elements each of three workers runs.
pub fn fusion_on_literals()
    ensures alone { shape_of two_branches two_regions 1 ≡ three_chains }
    ensures replicas { shape_of two_branches two_regions 2 ≡ two_replicas }
    ensures groups { groups_of 8 3 ≡ (0 ∷ 3 ∷ 6 ∷ []) ∷ (1 ∷ 4 ∷ 7 ∷ []) ∷ (2 ∷ 5 ∷ []) ∷ [] }
{}
