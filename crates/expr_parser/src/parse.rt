//! Expressions of a program.
ghost use Rattle.std.specs.Prelude.{◌≡◌, ◌≤◌, length};
ghost use Rattle.spl_tree.specs.Units.{place_of};
ghost use Rattle.expr_parser.specs.Parses.{ParsesExpr};

use crate::answer::{ParsedExpr, SyntaxAnswer};
use crate::reading::expr;
use crate::stop::Stop;
use spl_tree::{MOST_NESTED, Tokens};
use std::alloc::Global;
use token_weights::too_deep;

/// The byte at which that token of the list begins, or the program's end where there is none.
pub fn place_of(tokens: &Tokens, at: usize) -> u32
    ensures { result ≡ place_of tokens.now at }
{
    match tokens.list.get(at) {
        Some(token) => token.start,
        None => tokens.length,
    }
}

/// The expression that begins at the token `from` of the list, and the place in the list of the
/// token after it.
///
/// As many tokens are taken as can begin an expression. Where they aren't one themselves, the answer
/// is `Unexpected`, at the token after them or at the program's end. Before all, the answer is
/// `TooDeep` where a token from `from` on weighs too much in the list, at the first that does.
/// `Memory` is also the answer for what nests too deep for the stack.
pub fn parse_expr(alloc: Global, tokens: &Tokens, from: u32) -> Result<ParsedExpr, SyntaxAnswer>
    requires few { length tokens.now.list ≤ 1048576 }
    requires within { from ≤ length tokens.now.list }
    ensures { ParsesExpr tokens.now from result }
{
    let list = tokens.list.as_slice();
    if let Some(at) = too_deep(alloc, list, from as usize)? {
        return Err(SyntaxAnswer::TooDeep(place_of(tokens, at)));
    }
    match expr(alloc, MOST_NESTED, &list[from as usize..]) {
        Ok((expr, _, rest)) => {
            let next = (list.len() - rest.len()) as u32;
            Ok(ParsedExpr { expr, next })
        }
        Err(Stop::At(rest)) => {
            let at = place_of(tokens, list.len() - rest.len());
            Err(SyntaxAnswer::Unexpected(at))
        }
        Err(Stop::Memory) => Err(SyntaxAnswer::Memory),
    }
}
