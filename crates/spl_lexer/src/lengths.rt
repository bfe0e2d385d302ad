//! How far what stands at the front goes.
ghost use Rattle.std.specs.Prelude.{◌≡◌, ◌==◌, ◌<◌, ◌≤◌, length, not, false, IfSome};
ghost use Rattle.std.specs.List.{prefix_len};
ghost use Rattle.spl_value.specs.Decimal.{is_digit};
ghost use Rattle.spl_tree.specs.Bytes.{is_word_byte};
ghost use Rattle.spl_tree.specs.Tokens.{comment_length};
ghost use Rattle.spl_lexer.specs.steps.Scanning.{text_length};

use crate::bytes::{is_digit, is_word_byte};

/// How many letters and digits stand first.
pub(crate) fn word_length(bytes: &[u8]) -> usize
    ensures value { result ≡ prefix_len is_word_byte bytes.now }
    ensures within { result ≤ length bytes.now }
{
    for (i, b) in bytes.iter().enumerate() {
        if !is_word_byte(*b) {
            return i;
        }
    }
    bytes.len()
}

/// How many digits stand first.
pub(crate) fn digit_length(bytes: &[u8]) -> usize
    ensures value { result ≡ prefix_len is_digit bytes.now }
    ensures within { result ≤ length bytes.now }
{
    for (i, b) in bytes.iter().enumerate() {
        if !is_digit(*b) {
            return i;
        }
    }
    bytes.len()
}

/// How many bytes stand before the end of the line.
pub(crate) fn line_length(bytes: &[u8]) -> usize
    ensures value { result ≡ prefix_len (λ b. not (b == 10)) bytes.now }
    ensures within { result ≤ length bytes.now }
{
    for (i, b) in bytes.iter().enumerate() {
        if *b == b'\n' {
            return i;
        }
    }
    bytes.len()
}

/// How many bytes there are up to the first `*/`, and with it.
#[tactic(auto, using(crate::proofs::Ends::comment_on, crate::proofs::Ends::comment_end, crate::proofs::Ends::close_behind_none, crate::proofs::Ends::none_before))]
pub(crate) fn comment_length(bytes: &[u8]) -> Option<usize>
    ensures value { result ≡ comment_length bytes.now }
    ensures within { IfSome result (λ n. n ≤ length bytes.now) }
{
    let mut star = false;
    for (i, b) in bytes.iter().enumerate() {
        if star && *b == b'/' {
            return Some(i + 1);
        }
        star = *b == b'*';
    }
    None
}

/// How many bytes there are after a quote, up to the one that closes the text and with it. `None`
/// is a text that isn't closed on its line.
#[tactic(auto, using(crate::proofs::Ends::text_on, crate::proofs::Ends::text_end, crate::proofs::Ends::text_open, crate::proofs::Ends::none_before))]
pub(crate) fn text_length(quote: u8, bytes: &[u8]) -> Option<usize>
    ensures value { result ≡ text_length quote false bytes.now }
    ensures within { IfSome result (λ n. (0 < n) × (n ≤ length bytes.now)) }
{
    let mut escaped = false;
    for (i, b) in bytes.iter().enumerate() {
        if *b == b'\n' {
            return None;
        }
        if !escaped && *b == quote {
            return Some(i + 1);
        }
        escaped = !escaped && *b == b'\\';
    }
    None
}
