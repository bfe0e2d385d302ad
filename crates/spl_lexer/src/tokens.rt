//! The tokens of a program.
ghost use Rattle.std.specs.Prelude.{◌≡◌, Ok, IfOk, IfErr};
ghost use Rattle.spl_tree.specs.Tokens.{tokens};
ghost use Rattle.spl_lexer.specs.Answer.{Refuses};

use crate::LexAnswer;
use crate::front::{Scanned, front};
use spl_tree::{LexicalError, MOST_BYTES, Token, Tokens};
use spl_value::Items;
use std::alloc::Global;

/// The tokens of a program, or its first refusal, at the byte where it comes. That the program is
/// too long is looked at first.
#[tactic(auto, using(spl_tree::proofs::TokenLaws::refuse_step), unfolding(spl_tree::specs::Tokens::tokens))]
pub fn lex(alloc: Global, bytes: &[u8]) -> Result<Tokens, LexAnswer>
    ensures ok { IfOk result (λ found. tokens bytes.now ≡ Ok found) }
    ensures err { IfErr result (λ answer. Refuses answer (tokens bytes.now)) }
{
    if bytes.len() > MOST_BYTES as usize {
        return Err(LexAnswer::Refused(LexicalError::TooLong, MOST_BYTES));
    }
    let mut list = Items::new(alloc);
    let mut at = 0;
    while at < bytes.len() {
        match front(alloc, &bytes[at..])? {
            Scanned::Token(kind, length) => {
                let end = at + length;
                list.push(Token {
                    kind,
                    start: at as u32,
                    end: end as u32,
                })?;
                at = end;
            }
            Scanned::Gap(length) => at += length,
            Scanned::Refused(error, behind) => {
                return Err(LexAnswer::Refused(error, (at + behind) as u32));
            }
        }
    }
    Ok(Tokens {
        list,
        length: bytes.len() as u32,
    })
}
