//! Short numbers without a sign, read where they stand.
ghost use Rattle.std.specs.Prelude.{◌≡◌, ◌≤◌, ◌<◌, ◌+◌, ◌^◌, ◌↔◌, true, fold, length, take, slice_index, IsTrue, IfSome, pos};
ghost use Rattle.std.specs.List.{list_all};
ghost use Rattle.spl_value.specs.Decimal.{digit_step, is_digit};
ghost use Rattle.spl_value.specs.Values.{kind_holds};
ghost use Rattle.row_reader.specs.steps.Short.{IsShort};

use spl_value::{IntKind, is_of_kind};

/// The number that the digits at a line's front spell, of which 18 are read at most, and how many they are.
#[inline(always)]
fn leading_digits(line: &[u8]) -> (u64, usize)
    ensures within { result.1 ≤ length line.now }
    ensures digits { list_all is_digit (take result.1 line.now) ≡ true }
    ensures value { result.0 ≡ fold digit_step 0 (take result.1 line.now) }
    ensures small { result.0 < 10 ^ 18 }
{
    let mut n = 0u64;
    let mut end = 0usize;
    'digits: while end < line.len() && end < 18 {
        let b = line[end];
        if b < b'0' || b'9' < b {
            return (n, end);
        }
        n = n * 10 + u64::from(b - b'0');
        end += 1;
    }
    (n, end)
}

/// Whether a number of at most 18 digits is one of the kind's.
#[inline(always)]
fn is_of(kind: IntKind, n: u64) -> bool
    requires { n < 10 ^ 18 }
    ensures { result ≡ kind_holds kind (pos n) }
{
    match kind {
        IntKind::I64 | IntKind::U64 => true,
        _ => is_of_kind(kind, i128::from(n)),
    }
}

/// Whether a field ends at a place of a line: with the line, or at a comma.
#[inline(always)]
fn ends_at(line: &[u8], end: usize) -> bool
    requires { end ≤ length line.now }
    ensures { IsTrue result → end < length line.now → slice_index line.now end ≡ 44 }
{
    end == line.len() || line[end] == b','
}

/// The number of the kind that the first field of a line is, where it is at most 18 digits, and where the field ends.
#[inline(always)]
pub(crate) fn short_number(kind: IntKind, line: &[u8]) -> Option<(u64, usize)>
    ensures short { IfSome result (λ found. IsShort kind line.now found.0 found.1) }
    ensures small { IfSome result (λ found. found.0 < 10 ^ 18) }
{
    let (n, end) = leading_digits(line);
    if end == 0 || !ends_at(line, end) {
        return None;
    }
    if is_of(kind, n) { Some((n, end)) } else { None }
}
