//! What follows from the definitions.
ghost use Rattle.expr_parser.specs.Parses.{OneTreeLaw, OneAnswerLaw};

/// Tokens spell one expression at most: the tree of an expression is that of its tokens. And what
/// `parse_expr` has to answer of tokens is one thing, lack of memory apart.
pub fn expressions_law()
    ensures one { OneTreeLaw }
    ensures answer { OneAnswerLaw }
{}
