//! Integers as decimal text.
ghost use Rattle.std.specs.Prelude.{◌≡◌, ◌≤◌, ◌<◌, ◌^◌, ◌++◌, length, IfSome, MatchOption, None, Some, pos, neg_ℤ, option_map, OnOk, OnErr};
ghost use Rattle.std.specs.Fmt.{signed_decimal};
ghost use Rattle.spl_value.specs.Values.{kind_holds};
ghost use Rattle.spl_value.specs.Decimal.{natural, in_kind, integer_of};
ghost use Rattle.spl_value.specs.Near.{Spells};

use crate::{IntKind, NoMemory};
use itoa::Buffer;

/// Whether a number is one of the kind's.
pub fn is_of_kind(kind: IntKind, n: i128) -> bool
    ensures { result ≡ kind_holds kind n }
{
    match kind {
        IntKind::I8 => -0x80 <= n && n < 0x80,
        IntKind::I16 => -0x8000 <= n && n < 0x8000,
        IntKind::I32 => -0x8000_0000 <= n && n < 0x8000_0000,
        IntKind::I64 => -0x8000_0000_0000_0000 <= n && n < 0x8000_0000_0000_0000,
        IntKind::U8 => 0 <= n && n < 0x100,
        IntKind::U16 => 0 <= n && n < 0x1_0000,
        IntKind::U32 => 0 <= n && n < 0x1_0000_0000,
        IntKind::U64 => 0 <= n && n < 0x1_0000_0000_0000_0000,
    }
}

/// The number that at most 18 decimal digits spell; `None` where there is no digit, or another byte.
pub fn read_natural(digits: &[u8]) -> Option<u64>
    requires { length digits.now ≤ 18 }
    ensures value { result ≡ natural digits.now }
    ensures small { IfSome result (λ n. n < 10 ^ 18) }
{
    if digits.is_empty() {
        return None;
    }
    let mut n = 0u64;
    for b in digits {
        if *b < b'0' || b'9' < *b {
            return None;
        }
        n = n * 10 + u64::from(*b - b'0');
    }
    Some(n)
}

// The number that any digits spell, or one past every kind.
fn long_natural(digits: &[u8]) -> Option<u128>
    ensures value { MatchOption result (natural digits.now ≡ None) (λ n. Spells digits.now n) }
    ensures small { IfSome result (λ n. n < 10 ^ 22) }
{
    if digits.is_empty() {
        return None;
    }
    let mut n = 0u128;
    for b in digits {
        if *b < b'0' || b'9' < *b {
            return None;
        }
        if n < 100_000_000_000_000_000_000 {
            n = n * 10 + u128::from(*b - b'0');
        }
    }
    Some(n)
}

fn if_of_kind(kind: IntKind, n: i128) -> Option<i128>
    ensures { result ≡ in_kind kind (Some n) }
{
    if is_of_kind(kind, n) { Some(n) } else { None }
}

// The number that any digits spell, or one past every kind; at most 18 digits are added up in 64 bits.
fn read_digits(digits: &[u8]) -> Option<u128>
    ensures value { MatchOption result (natural digits.now ≡ None) (λ n. Spells digits.now n) }
    ensures small { IfSome result (λ n. n < 10 ^ 22) }
{
    if digits.len() <= 18 {
        Some(u128::from(read_natural(digits)?))
    } else {
        long_natural(digits)
    }
}

// The number of the kind that digits spell.
fn read_positive(kind: IntKind, digits: &[u8]) -> Option<i128>
    ensures { result ≡ in_kind kind (option_map pos (natural digits.now)) }
{
    if_of_kind(kind, read_digits(digits)? as i128)
}

// The number of the kind that a minus and these digits spell.
fn read_negative(kind: IntKind, digits: &[u8]) -> Option<i128>
    ensures { result ≡ in_kind kind (option_map (λ n. neg_ℤ (pos n)) (natural digits.now)) }
{
    if_of_kind(kind, -(read_digits(digits)? as i128))
}

/// The number of the kind that an optional `-` and decimal digits spell. Leading zeros are
/// allowed; `None` is any other text and any number out of the kind's range.
pub fn read_integer(kind: IntKind, text: &[u8]) -> Option<i128>
    ensures { result ≡ integer_of kind text.now }
{
    match text {
        [] => None,
        [b'-', digits @ ..] => read_negative(kind, digits),
        _ => read_positive(kind, text),
    }
}

/// Adds a number's decimal digits, with `-` in front where it is negative.
pub fn add_integer(text: &mut Vec<u8>, n: i128) -> Result<(), NoMemory>
    ensures ok { OnOk result (text.new.items ≡ text.old.items ++ signed_decimal n) }
    ensures err { OnErr result (text.new.items ≡ text.old.items) }
{
    let mut digits = Buffer::new();
    text.extend_from_slice(digits.format(n).as_bytes())?;
    Ok(())
}
