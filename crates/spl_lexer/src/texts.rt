//! Text literals.
ghost use Rattle.std.specs.Prelude.{◌≡◌, ◌∷◌, ◌≤◌, length, true, IfOk};
ghost use Rattle.spl_tree.specs.Bytes.{is_quote};
ghost use Rattle.spl_tree.specs.Tokens.{front, unescaped, escape};
ghost use Rattle.spl_lexer.specs.steps.Scanning.{front_of, unescaped_of};

use crate::front::Scanned;
use crate::lengths::text_length;
use spl_tree::{LexicalError, TokenKind};
use spl_value::{Bytes, Items, NoMemory};
use std::alloc::Global;

/// The bytes between the quotes of a text.
#[derive(Drop)]
pub(crate) enum Unescaped {
    /// Each escape is the byte that it stands for.
    Bytes(Bytes),
    /// The place of the first backslash that begins no escape.
    BadEscape(usize),
}

// The byte that a backslash and this byte stand for.
fn escape(b: u8) -> Option<u8>
    ensures { result ≡ escape b }
{
    match b {
        b'"' | b'\'' | b'\\' => Some(b),
        b'n' => Some(b'\n'),
        b't' => Some(b'\t'),
        b'r' => Some(b'\r'),
        _ => None,
    }
}

// The bytes between the quotes of a text, which begin at place 1.
#[tactic(auto, using(crate::proofs::Escapes::behind_none, crate::proofs::Escapes::bad_step, crate::proofs::Escapes::all_come, crate::proofs::Escapes::bad_end))]
fn unescape(alloc: Global, bytes: &[u8]) -> Result<Unescaped, NoMemory>
    ensures { IfOk result (λ found. unescaped_of found ≡ unescaped 1 bytes.now) }
{
    let mut text = Items::with_capacity(alloc, bytes.len())?;
    let mut escaped = false;
    for (i, b) in bytes.iter().enumerate() {
        if escaped {
            let Some(b) = escape(*b) else {
                return Ok(Unescaped::BadEscape(i));
            };
            text.push(b)?;
            escaped = false;
        } else if *b == b'\\' {
            escaped = true;
        } else {
            text.push(*b)?;
        }
    }
    if escaped {
        return Ok(Unescaped::BadEscape(bytes.len()));
    }
    Ok(Unescaped::Bytes(text))
}

/// The text after this quote.
#[tactic(auto, using(crate::proofs::Found::open_found))]
pub(crate) fn text(alloc: Global, quote: u8, bytes: &[u8]) -> Result<Scanned, NoMemory>
    requires { is_quote quote ≡ true }
    ensures { IfOk result (λ ahead. front_of ahead ≡ front (quote ∷ bytes.now)) }
{
    let Some(length) = text_length(quote, bytes) else {
        return Ok(Scanned::Refused(LexicalError::OpenText, 0));
    };
    match unescape(alloc, &bytes[..length - 1])? {
        Unescaped::Bytes(text) => Ok(Scanned::Token(TokenKind::Text(text), length + 1)),
        Unescaped::BadEscape(at) => Ok(Scanned::Refused(LexicalError::BadByte, at)),
    }
}
