//! What stands at the front of bytes.
ghost use Rattle.std.specs.Prelude.{◌≡◌, ◌<◌, ◌≤◌, ◌∷◌, length, true, IfOk};
ghost use Rattle.spl_tree.specs.Tokens.{front};
ghost use Rattle.spl_tree.specs.TokenLaws.{Fits};
ghost use Rattle.spl_lexer.specs.steps.Scanning.{front_of};

use crate::bytes::{is_blank, is_digit, is_letter, is_quote, starts_with};
use crate::lengths::{comment_length, line_length};
use crate::numbers::number;
use crate::symbols::symbol;
use crate::texts::text;
use crate::words::{dollar, word};
use spl_tree::{LexicalError, TokenKind};
use spl_value::NoMemory;
use std::alloc::Global;

/// What stands at the front of bytes, with lengths and places in bytes from the front on.
#[derive(Drop)]
pub(crate) enum Scanned {
    /// A token, with its length in bytes.
    Token(TokenKind, usize),
    /// Bytes that separate tokens: their number.
    Gap(usize),
    /// Nothing that may stand there: why, and where.
    Refused(LexicalError, usize),
}

/// What stands at the front of bytes, which aren't empty.
#[tactic(auto, using(crate::proofs::Found::fits_found))]
pub(crate) fn front(alloc: Global, bytes: &[u8]) -> Result<Scanned, NoMemory>
    requires { 0 < length bytes.now }
    ensures value { IfOk result (λ ahead. front_of ahead ≡ front bytes.now) }
    ensures fits { IfOk result (λ ahead. Fits (length bytes.now) (front_of ahead)) }
{
    let ahead = by_first_byte(alloc, bytes)?;
    Ok(ahead)
}

#[tactic(auto, using(crate::proofs::Found::blank_found, crate::proofs::Found::comment_found))]
fn by_first_byte(alloc: Global, bytes: &[u8]) -> Result<Scanned, NoMemory>
    requires { 0 < length bytes.now }
    ensures { IfOk result (λ ahead. front_of ahead ≡ front bytes.now) }
{
    let b = bytes[0];
    if is_blank(b) {
        return Ok(Scanned::Gap(1));
    }
    if is_letter(b) {
        return word(alloc, bytes);
    }
    if is_digit(b) {
        return Ok(number(bytes));
    }
    let rest = &bytes[1..];
    if b == b'$' {
        return dollar(alloc, rest);
    }
    if is_quote(b) {
        return text(alloc, b, rest);
    }
    if b == b'/' && starts_with(rest, b'/') {
        return Ok(Scanned::Gap(line_length(&rest[1..]) + 2));
    }
    if b == b'/' && starts_with(rest, b'*') {
        return Ok(comment(&rest[1..]));
    }
    Ok(symbol(bytes))
}

// A comment, after its `/*`.
#[tactic(auto, using(crate::proofs::Fronts::comment_is))]
fn comment(bytes: &[u8]) -> Scanned
    ensures { front_of result ≡ front (47 ∷ 42 ∷ bytes.now) }
{
    match comment_length(bytes) {
        Some(n) => Scanned::Gap(n + 2),
        None => Scanned::Refused(LexicalError::OpenComment, 0),
    }
}
