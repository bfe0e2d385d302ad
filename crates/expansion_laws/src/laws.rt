//! Where operators stand in the text, how they are named, and what they take.
ghost use Rattle.std.specs.Prelude.{[], ◌∷◌, codes};
ghost use Rattle.language_model.specs.examples.FlatGraphs.{reversed, reversed_graph};
ghost use Rattle.expansion_laws.specs.Bodies.{IsBefore, Lies};
ghost use Rattle.expansion_laws.specs.Laws.{CheckedOrderLaw, FoundLaw, InputLaw, NameLaw, OneStandingLaw, OrderLaw, SameGraphLaw, SiteLaw, TextLaw};
ghost use Rattle.expansion_laws.specs.Names.{DottedLaw};
ghost use Rattle.expansion_laws.specs.Standing.{IsOutput, StandsFor, site};

/// Each unit has a graph, or a first refusal on the way to it.
pub fn found_law()
    ensures some { FoundLaw }
{}

/// Each invocation in a body is one operator at most. Operators stand in the order of the text: the bodies of composites lie
/// where they are invoked. The name of an operator is its alias or else its first output stream, after the names of
/// the invocations that lead to it, with a dot after each: words with dots between them.
pub fn sites_law()
    ensures sites { SiteLaw }
    ensures names { NameLaw }
    ensures in_text { TextLaw }
    ensures dotted { DottedLaw }
{}

/// At an input an operator takes exactly the streams that the names there mean, in order, and a name means one list of
/// streams. A name means a stream that an invocation beside it makes; where that invokes a composite, it is the stream
/// in its graph that has the name of the output. Or it is the name of an input of the head, and means what the names at
/// this input mean where the composite is invoked.
pub fn inputs_law()
    ensures inputs { InputLaw }
    ensures one { OneStandingLaw }
{}

/// A graph has the topological order, in which again and again the first operator comes whose streams are all made by
/// those that came. There is no other such order.
pub fn order_law()
    ensures order { OrderLaw }
{}

/// What is found of a graph by the checks has this graph. So a checked graph of a unit has the topological
/// order, and no other list of its operators is one.
pub fn checked_law()
    ensures graph { SameGraphLaw }
    ensures order { CheckedOrderLaw }
{
    order_law();
}

/// In the graph of a program that invokes a composite twice: where an operator lies, the stream that the output of a composite is, and
/// those that the input of its head has, which come from two names.
pub fn inputs_on_literals()
    ensures lies { Lies reversed reversed_graph 1 (1 ∷ []) (codes "Y.") }
    ensures before { IsBefore (1 ∷ 1 ∷ []) (2 ∷ 0 ∷ []) }
    ensures around { IsBefore (1 ∷ 1 ∷ []) (1 ∷ []) → ⊥ }
    ensures output { IsOutput reversed reversed_graph (site 0 1) 0 1 }
    ensures inputs { StandsFor reversed reversed_graph 1 (codes "I") (3 ∷ 4 ∷ []) }
{}
