//! Integers and booleans at places of a line.
ghost use Rattle.std.specs.Prelude.{◌≡◌, ◌≤◌, ◌+◌, length, drop, IfOk, IfSome};
ghost use Rattle.std.specs.List.{prefix_len};
ghost use Rattle.spl_value.specs.Decimal.{is_digit as digit_byte};
ghost use Rattle.txt_format.specs.steps.Bytes.{IsRead, is_part as part_byte};
ghost use Rattle.txt_format.specs.steps.ShortNumbers.{IsAdded, IsShort};
ghost use Rattle.txt_format.specs.steps.Reading.{as_other, push, read_int, read_truth};

use crate::bytes::skip_name;
use spl_value::{IntKind, NoMemory, Value, Values, is_of_kind, read_integer};

#[inline]
fn is_digit(b: u8) -> bool
    ensures { result ≡ digit_byte b }
{
    !(b < b'0') && b <= b'9'
}

#[inline]
fn is_part(b: u8) -> bool
    ensures { result ≡ part_byte b }
{
    is_digit(b) || b == b'-'
}

// Where the digits and signs at a place end.
fn number_end(line: &[u8], at: usize) -> usize
    requires { at ≤ length line.now }
    ensures within { result ≤ length line.now }
    ensures end { result ≡ at + prefix_len part_byte (drop at line.now) }
{
    let mut end = at;
    'digits: while end < line.len() {
        if !is_part(line[end]) {
            return end;
        }
        end += 1;
    }
    end
}

// The number that the digits at the front of a text spell, and how many they are. `None` where there is none, where
// there are more than 18 or nothing comes behind them, and where a sign does.
fn short_natural(text: &[u8]) -> Option<(u64, usize)>
    ensures { IfSome result (IsShort text.now) }
{
    let mut n = 0u64;
    'digits: for (i, b) in text.iter().enumerate() {
        if !is_digit(*b) {
            if i == 0 || *b == b'-' {
                return None;
            }
            return Some((n, i));
        }
        if i == 18 {
            return None;
        }
        n = n * 10 + u64::from(*b - b'0');
    }
    None
}

// Adds a number, where it is one of the kind's, and tells where it ends.
fn add_number(
    values: &mut Values,
    kind: IntKind,
    n: i128,
    end: usize,
) -> Result<Option<usize>, NoMemory>
    ensures { IfOk result (IsAdded kind n end values.old values.new) }
{
    if !is_of_kind(kind, n) {
        return Ok(None);
    }
    values.push(Value::Int(n))?;
    Ok(Some(end))
}

// Adds the integer at a place, however many digits it has.
#[inline(never)]
fn add_long(
    values: &mut Values,
    kind: IntKind,
    line: &[u8],
    at: usize,
) -> Result<Option<usize>, NoMemory>
    requires { at ≤ length line.now }
    ensures { IfOk result (IsRead (as_other (push values.old) (read_int kind (drop at line.now))) line.now values.new) }
{
    let end = number_end(line, at);
    match read_integer(kind, &line[at..end]) {
        None => Ok(None),
        Some(n) => {
            values.push(Value::Int(n))?;
            Ok(Some(end))
        }
    }
}

/// Adds the integer at a place, and tells where it ends. `None` where there is none of the kind. At most 18 digits are
/// added up in 64 bits, as they are passed.
pub(crate) fn add_integer(
    values: &mut Values,
    kind: IntKind,
    line: &[u8],
    at: usize,
) -> Result<Option<usize>, NoMemory>
    requires { at ≤ length line.now }
    ensures { IfOk result (IsRead (as_other (push values.old) (read_int kind (drop at line.now))) line.now values.new) }
{
    if at < line.len() && line[at] == b'-' {
        match short_natural(&line[at + 1..]) {
            Some((n, count)) => add_number(values, kind, -i128::from(n), at + 1 + count),
            None => add_long(values, kind, line, at),
        }
    } else {
        match short_natural(&line[at..]) {
            Some((n, count)) => add_number(values, kind, i128::from(n), at + count),
            None => add_long(values, kind, line, at),
        }
    }
}

/// Adds the boolean at a place, and tells where it ends. `None` where there is none.
pub(crate) fn add_truth(
    values: &mut Values,
    line: &[u8],
    at: usize,
) -> Result<Option<usize>, NoMemory>
    requires { at ≤ length line.now }
    ensures { IfOk result (IsRead (as_other (push values.old) (read_truth (drop at line.now))) line.now values.new) }
{
    if let Some(end) = skip_name(line, at, b"true") {
        values.push(Value::Bool(true))?;
        return Ok(Some(end));
    }
    match skip_name(line, at, b"false") {
        Some(end) => {
            values.push(Value::Bool(false))?;
            Ok(Some(end))
        }
        None => Ok(None),
    }
}
