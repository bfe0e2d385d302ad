ghost use Rattle.std.specs.Prelude.{◌≡◌};
ghost use Rattle.expr_parser.specs.declared.answer.SyntaxAnswer.TheVariants.{Memory};

use spl_tree::Expr;
use spl_value::NoMemory;

/// An expression, and the place in the list of the token after it.
#[derive(Drop)]
pub struct ParsedExpr {
    pub expr: Expr,
    pub next: u32,
}

/// Why there is no expression. The places are those of bytes in the program.
#[derive(Clone, Copy)]
pub enum SyntaxAnswer {
    /// This token can't stand here. The end of the program counts as a token.
    Unexpected(u32),
    /// This token is the first of those looked at that weighs too much.
    TooDeep(u32),
    /// There was no memory, or the stack has no room for what nests so deep.
    Memory,
}

impl From<NoMemory> for SyntaxAnswer {
    ghost from_gives = { λ _ answer. answer ≡ Memory };

    fn from(_: NoMemory) -> SyntaxAnswer {
        SyntaxAnswer::Memory
    }
}
