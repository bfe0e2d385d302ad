use crate::{Keyword, Symbol};
use spl_value::{Bytes, IntKind, Items, Name};

/// The most bytes that a program has.
pub const MOST_BYTES: u32 = 1_048_576;

/// What a number literal says: its type, and its value, which is in the type's range.
#[derive(Clone, Copy)]
pub struct Number {
    pub kind: IntKind,
    pub value: u64,
}

/// What a token is.
pub enum TokenKind {
    /// A word that isn't reserved.
    Word(Name),
    /// `$` and a word, reserved or not: the bytes of the word.
    Dollar(Name),
    Number(Number),
    /// A text literal: its bytes, each escape as the byte that it stands for.
    Text(Bytes),
    Keyword(Keyword),
    Symbol(Symbol),
}

impl Drop for TokenKind {
    fn drop(self) {
        match self {
            TokenKind::Word(_) => {}
            TokenKind::Dollar(_) => {}
            TokenKind::Number(_) => {}
            TokenKind::Text(_) => {}
            TokenKind::Keyword(_) => {}
            TokenKind::Symbol(_) => {}
        }
    }
}

/// A token, with the place of its first byte and the place after its last.
pub struct Token {
    pub kind: TokenKind,
    pub start: u32,
    pub end: u32,
}

impl Drop for Token {
    fn drop(self) {
        let Token {
            kind: _,
            start: _,
            end: _,
        } = self;
    }
}

/// Tokens in the order of their places.
pub type TokenList = Items<Token>;

/// The tokens of a program, and the number of its bytes, which is the place of its end.
pub struct Tokens {
    pub list: TokenList,
    pub length: u32,
}

impl Drop for Tokens {
    fn drop(self) {
        let Tokens { list: _, length: _ } = self;
    }
}

/// Why bytes are no tokens.
#[derive(Clone, Copy)]
pub enum LexicalError {
    /// A byte begins no token, or a backslash begins no escape.
    BadByte,
    /// A text isn't closed on its line.
    OpenText,
    /// `/*` isn't closed.
    OpenComment,
    /// A number exceeds its type, or a letter, a digit or `_` stands right after it.
    BadNumber,
    /// There are more bytes than a program may have.
    TooLong,
}
