//! Tokens as texts: `word of 2 0..2;LessOrEqual 2..4;I32 7 4..5;`.
use spl_tree::{Token, TokenKind};
use std::alloc::{AllocError, Global};
use test_texts::text::Text;

/// Adds a token with its places. Of a name and of a text it shows how many bytes they have.
pub fn add_token(text: &mut Text, alloc: Global, token: &Token) -> Result<(), AllocError> {
    let kind = match &token.kind {
        TokenKind::Word(name) => format!(in alloc; "word of {}", name.len())?,
        TokenKind::Dollar(name) => format!(in alloc; "dollar of {}", name.len())?,
        TokenKind::Number(number) => format!(in alloc; "{:?} {}", number.kind, number.value)?,
        TokenKind::Text(bytes) => format!(in alloc; "text of {}", bytes.len())?,
        TokenKind::Keyword(keyword) => {
            text.add_bytes(keyword.word());
            String::new(alloc)
        }
        TokenKind::Symbol(symbol) => format!(in alloc; "{symbol:?}")?,
    };
    text.add(kind.as_str());
    text.add_place(" ", token.start);
    text.add_place("..", token.end);
    text.add(";");
    Ok(())
}
