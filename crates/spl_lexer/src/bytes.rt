//! Kinds of bytes.
ghost use Rattle.std.specs.Prelude.{◌≡◌, ◌==◌};
ghost use Rattle.spl_value.specs.Decimal.{is_digit};
ghost use Rattle.spl_tree.specs.Bytes.{is_blank, is_letter, is_word_byte, is_quote, begins};

pub(crate) fn is_blank(b: u8) -> bool
    ensures { result ≡ is_blank b }
{
    b == b' ' || b == b'\t' || b == b'\r' || b == b'\n'
}

pub(crate) fn is_letter(b: u8) -> bool
    ensures { result ≡ is_letter b }
{
    (b'a' <= b && b <= b'z') || (b'A' <= b && b <= b'Z') || b == b'_'
}

pub(crate) fn is_digit(b: u8) -> bool
    ensures { result ≡ is_digit b }
{
    b'0' <= b && b <= b'9'
}

pub(crate) fn is_word_byte(b: u8) -> bool
    ensures { result ≡ is_word_byte b }
{
    is_letter(b) || is_digit(b)
}

pub(crate) fn is_quote(b: u8) -> bool
    ensures { result ≡ is_quote b }
{
    b == b'"' || b == b'\''
}

/// Whether this byte stands first.
pub(crate) fn starts_with(bytes: &[u8], b: u8) -> bool
    ensures { result ≡ begins (λ c. c == b) bytes.now }
{
    match bytes {
        [c, ..] => *c == b,
        [] => false,
    }
}

/// Whether a letter or a digit stands first.
pub(crate) fn starts_word_byte(bytes: &[u8]) -> bool
    ensures { result ≡ begins is_word_byte bytes.now }
{
    match bytes {
        [b, ..] => is_word_byte(*b),
        [] => false,
    }
}

/// Whether a letter stands first.
pub(crate) fn starts_letter(bytes: &[u8]) -> bool
    ensures { result ≡ begins is_letter bytes.now }
{
    match bytes {
        [b, ..] => is_letter(*b),
        [] => false,
    }
}
