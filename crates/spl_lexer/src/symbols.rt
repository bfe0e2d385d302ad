//! Symbols.
ghost use Rattle.std.specs.Prelude.{◌≡◌, ◌<◌, ◌∷◌, [], length};
ghost use Rattle.spl_tree.specs.Words.{symbol_of};
ghost use Rattle.spl_lexer.specs.steps.Scanning.{front_of, symbol_ahead, double_of};

use crate::front::Scanned;
use spl_tree::{LexicalError, Symbol, TokenKind};

// The symbol of one byte.
fn single(b: u8) -> Option<Symbol>
    ensures { result ≡ symbol_of (b ∷ []) }
{
    match b {
        b'(' => Some(Symbol::LeftParen),
        b')' => Some(Symbol::RightParen),
        b'[' => Some(Symbol::LeftBracket),
        b']' => Some(Symbol::RightBracket),
        b'{' => Some(Symbol::LeftBrace),
        b'}' => Some(Symbol::RightBrace),
        b',' => Some(Symbol::Comma),
        b';' => Some(Symbol::Semicolon),
        b':' => Some(Symbol::Colon),
        b'.' => Some(Symbol::Dot),
        b'=' => Some(Symbol::Assign),
        b'<' => Some(Symbol::Less),
        b'>' => Some(Symbol::Greater),
        b'+' => Some(Symbol::Plus),
        b'-' => Some(Symbol::Minus),
        b'*' => Some(Symbol::Star),
        b'/' => Some(Symbol::Slash),
        b'%' => Some(Symbol::Percent),
        b'!' => Some(Symbol::Exclamation),
        b'~' => Some(Symbol::Tilde),
        b'&' => Some(Symbol::Ampersand),
        b'^' => Some(Symbol::Caret),
        b'|' => Some(Symbol::Pipe),
        b'?' => Some(Symbol::Question),
        _ => None,
    }
}

// The symbol of two bytes.
fn double(b: u8, c: u8) -> Option<Symbol>
    ensures { result ≡ symbol_of (b ∷ c ∷ []) }
{
    match (b, c) {
        (b'=', b'=') => Some(Symbol::Equal),
        (b'!', b'=') => Some(Symbol::NotEqual),
        (b'<', b'=') => Some(Symbol::LessOrEqual),
        (b'>', b'=') => Some(Symbol::GreaterOrEqual),
        (b'&', b'&') => Some(Symbol::DoubleAmpersand),
        (b'|', b'|') => Some(Symbol::DoublePipe),
        (b'+', b'=') => Some(Symbol::PlusAssign),
        (b'-', b'=') => Some(Symbol::MinusAssign),
        (b'*', b'=') => Some(Symbol::StarAssign),
        (b'/', b'=') => Some(Symbol::SlashAssign),
        (b'%', b'=') => Some(Symbol::PercentAssign),
        _ => None,
    }
}

/// The symbol at the front, where nothing else can stand there.
pub(crate) fn symbol(bytes: &[u8]) -> Scanned
    requires { 0 < length bytes.now }
    ensures { front_of result ≡ symbol_ahead bytes.now (double_of bytes.now) }
{
    if let [b, c, ..] = bytes
        && let Some(symbol) = double(*b, *c)
    {
        return Scanned::Token(TokenKind::Symbol(symbol), 2);
    }
    match single(bytes[0]) {
        Some(symbol) => Scanned::Token(TokenKind::Symbol(symbol), 1),
        None => Scanned::Refused(LexicalError::BadByte, 0),
    }
}
