//! Networks of elements and links: what an element owes for what it has taken, which events may happen, and when a network
//! runs a graph.
#![tactic(auto)]

ghost use Rattle.network_model.specs.ElementRule.{BeginsLaw, CutsLaw, DoneLaw, MovesLaw, PutsLaw, TakesLaw};
ghost use Rattle.network_model.specs.PartLaws.{AddsLaw, FansLaw, NothingLaw, PartLaw, PoursLaw, ReceiptsLaw};

/// Chains, splitters, replicas and mergers owe nothing for nothing and more for more, never `Cut`, and on each output
/// nothing behind `Close`.
pub fn parts_law()
    ensures parts { PartLaw }
    ensures nothing { NothingLaw }
{}

/// What is owed for receipts in order is what is owed for the first of them and, for each one more, what it adds.
pub fn receipts_law()
    ensures chains { ReceiptsLaw }
    ensures adds { AddsLaw }
    ensures pours { PoursLaw }
{}

/// What a chain or a merger sends, by the number of connections of each output port.
pub fn fans_law()
    ensures fans { FansLaw }
{}

/// Each step of an element keeps its rule: it takes something, with memory or without, puts a packet, or is cut.
pub fn rule_law()
    ensures begins { BeginsLaw }
    ensures takes { TakesLaw }
    ensures puts { PutsLaw }
    ensures cuts { CutsLaw }
{}

/// By its rule the lists of an element are in progress at any moment, and joined where it is done.
pub fn element_law()
    ensures moves { MovesLaw }
    ensures done { DoneLaw }
{}
