//! Words, reserved words and dollars.
ghost use Rattle.std.specs.Prelude.{◌≡◌, ◌∷◌, ◌≤◌, true, find, IfOk, length};
ghost use Rattle.std.specs.Str.{bytes_eq};
ghost use Rattle.spl_tree.specs.Bytes.{is_letter, begins};
ghost use Rattle.spl_tree.specs.Words.{keyword_word, keyword_of};
ghost use Rattle.spl_tree.specs.Tokens.{front};
ghost use Rattle.spl_lexer.specs.steps.Scanning.{front_of};

use crate::bytes::starts_letter;
use crate::front::Scanned;
use crate::lengths::word_length;
use spl_tree::{KEYWORDS, Keyword, LexicalError, TokenKind};
use spl_value::{Items, NoMemory};
use std::alloc::Global;

// The first of the keywords whose word these bytes are.
fn find_keyword(keywords: &[Keyword], word: &[u8]) -> Option<Keyword>
    ensures { result ≡ find (λ k. bytes_eq (keyword_word k) word.now) keywords.now }
{
    for keyword in keywords {
        if keyword.word() == word {
            return Some(*keyword);
        }
    }
    None
}

// The reserved word that the bytes are.
fn keyword_of(word: &[u8]) -> Option<Keyword>
    ensures { result ≡ keyword_of word.now }
{
    find_keyword(&KEYWORDS, word)
}

/// The word at the front, which a letter begins.
#[tactic(auto, using(crate::proofs::Found::name_found))]
pub(crate) fn word(alloc: Global, bytes: &[u8]) -> Result<Scanned, NoMemory>
    requires { begins is_letter bytes.now ≡ true }
    ensures { IfOk result (λ ahead. front_of ahead ≡ front bytes.now) }
{
    let length = word_length(bytes);
    let text = &bytes[..length];
    match keyword_of(text) {
        Some(keyword) => Ok(Scanned::Token(TokenKind::Keyword(keyword), length)),
        None => {
            let name = Items::from_slice(alloc, text)?;
            Ok(Scanned::Token(TokenKind::Word(name), length))
        }
    }
}

/// The `$` parameter, where these bytes come after the `$`.
#[tactic(auto, using(crate::proofs::Fronts::dollar_front, crate::proofs::Fronts::dollar_none))]
pub(crate) fn dollar(alloc: Global, bytes: &[u8]) -> Result<Scanned, NoMemory>
    ensures { IfOk result (λ ahead. front_of ahead ≡ front (36 ∷ bytes.now)) }
{
    if !starts_letter(bytes) {
        return Ok(Scanned::Refused(LexicalError::BadByte, 0));
    }
    let length = word_length(bytes);
    let name = Items::from_slice(alloc, &bytes[..length])?;
    Ok(Scanned::Token(TokenKind::Dollar(name), length + 1))
}
