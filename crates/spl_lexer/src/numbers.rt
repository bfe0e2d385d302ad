//! Number literals.
ghost use Rattle.std.specs.Prelude.{◌≡◌, ◌≤◌, ◌<◌, length, take, drop, fold, Err, Ok, true, false};
ghost use Rattle.std.specs.List.{prefix_len, list_all};
ghost use Rattle.spl_value.specs.Decimal.{is_digit, digit_step};
ghost use Rattle.spl_tree.specs.Bytes.{begins};
ghost use Rattle.spl_tree.specs.Tokens.{front, number_kind, as_front};
ghost use Rattle.spl_lexer.specs.steps.Scanning.{front_of, suffix_ahead, width_ahead};

use crate::bytes::starts_word_byte;
use crate::front::Scanned;
use crate::lengths::digit_length;
use spl_tree::{LexicalError, Number, TokenKind};
use spl_value::{IntKind, read_integer};

// The kind that the width letter at the front says, and how many letters there are.
fn signed_suffix(bytes: &[u8]) -> (IntKind, usize)
    ensures { result ≡ width_ahead IntKind.I8 IntKind.I16 IntKind.I32 IntKind.I64 bytes.now }
{
    match bytes {
        [b'b', ..] => (IntKind::I8, 1),
        [b'h', ..] => (IntKind::I16, 1),
        [b'w', ..] => (IntKind::I32, 1),
        [b'l', ..] => (IntKind::I64, 1),
        _ => (IntKind::I32, 0),
    }
}

// The same after a `u`.
fn unsigned_suffix(bytes: &[u8]) -> (IntKind, usize)
    ensures { result ≡ width_ahead IntKind.U8 IntKind.U16 IntKind.U32 IntKind.U64 bytes.now }
{
    match bytes {
        [b'b', ..] => (IntKind::U8, 1),
        [b'h', ..] => (IntKind::U16, 1),
        [b'w', ..] => (IntKind::U32, 1),
        [b'l', ..] => (IntKind::U64, 1),
        _ => (IntKind::U32, 0),
    }
}

/// The kind that the suffix at the front says, and its length.
fn suffix(bytes: &[u8]) -> (IntKind, usize)
    ensures value { result ≡ suffix_ahead bytes.now }
    ensures within { result.1 ≤ length bytes.now }
{
    match bytes {
        [b's', rest @ ..] => {
            let (kind, length) = signed_suffix(rest);
            (kind, length + 1)
        }
        [b'u', rest @ ..] => {
            let (kind, length) = unsigned_suffix(rest);
            (kind, length + 1)
        }
        _ => signed_suffix(bytes),
    }
}

// The number of the kind that digits spell. With its suffix it has `end` bytes.
fn of_kind(kind: IntKind, digits: &[u8], end: usize) -> Scanned
    requires some { 0 < length digits.now }
    requires all { list_all is_digit digits.now ≡ true }
    ensures { front_of result ≡ as_front end (number_kind (fold digit_step 0 digits.now) kind) }
{
    match read_integer(kind, digits) {
        Some(value) => Scanned::Token(
            TokenKind::Number(Number {
                kind,
                value: value as u64,
            }),
            end,
        ),
        None => Scanned::Refused(LexicalError::BadNumber, 0),
    }
}

/// The number at the front, which a digit begins.
#[tactic(auto, using(crate::proofs::Found::digits_found))]
pub(crate) fn number(bytes: &[u8]) -> Scanned
    requires { begins is_digit bytes.now ≡ true }
    ensures { front_of result ≡ front bytes.now }
{
    let digits = digit_length(bytes);
    let (kind, letters) = suffix(&bytes[digits..]);
    let end = digits + letters;
    if starts_word_byte(&bytes[end..]) {
        return Scanned::Refused(LexicalError::BadNumber, 0);
    }
    of_kind(kind, &bytes[..digits], end)
}
