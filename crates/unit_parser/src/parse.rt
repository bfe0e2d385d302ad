//! Programs.
ghost use Rattle.std.specs.Prelude.{◌≡◌, ◌-◌, ◌≤◌, length};
ghost use Rattle.spl_tree.specs.Units.{place_of};
ghost use Rattle.expr_parser.specs.declared.answer.SyntaxAnswer.TheVariants.{Unexpected};
ghost use Rattle.unit_parser.specs.Parses.{ParsesUnit};

use crate::units::unit;
use expr_parser::{Stop, SyntaxAnswer, place_of, too_deep};
use spl_tree::{Token, Tokens, Unit};
use std::alloc::Global;

/// The answer where these tokens, the last of the list, are left: the first of them is refused, or the
/// program's end.
fn unexpected(tokens: &Tokens, rest: &[Token]) -> SyntaxAnswer
    requires { length rest.now ≤ length tokens.now.list }
    ensures { result ≡ Unexpected (place_of tokens.now (length tokens.now.list - length rest.now)) }
{
    let list = tokens.list.as_slice();
    SyntaxAnswer::Unexpected(place_of(tokens, list.len() - rest.len()))
}

/// The unit that the tokens spell, all of them.
///
/// Where they spell none, the answer is `Unexpected`, at the first token at which no unit goes on, or
/// at the program's end. Before that, the answer is `TooDeep` where a token weighs too much, at the
/// first that does. `Memory` is also the answer for what nests too deep for the stack.
pub fn parse_unit(alloc: Global, tokens: &Tokens) -> Result<Unit, SyntaxAnswer>
    requires few { length tokens.now.list ≤ 1048576 }
    ensures { ParsesUnit tokens.now result }
{
    let list = tokens.list.as_slice();
    if let Some(at) = too_deep(alloc, list, 0)? {
        return Err(SyntaxAnswer::TooDeep(place_of(tokens, at)));
    }
    match unit(alloc, list) {
        Ok((unit, rest)) if rest.is_empty() => Ok(unit),
        Ok((_, rest)) => Err(unexpected(tokens, rest)),
        Err(Stop::At(rest)) => Err(unexpected(tokens, rest)),
        Err(Stop::Memory) => Err(SyntaxAnswer::Memory),
    }
}
