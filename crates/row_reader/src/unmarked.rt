//! A line that is split at its commas where it stands.
ghost use Rattle.std.specs.Prelude.{◌≡◌, ◌≤◌, ◌<◌, true, false, length, IfOk, IfSome, None};
ghost use Rattle.stream_model.specs.Rows.{Row, line_gives};
ghost use Rattle.row_reader.specs.declared.columns.Column.TheVariants as C;
ghost use Rattle.row_reader.specs.Columns.{attributes, type_of};
ghost use Rattle.row_reader.specs.steps.Plain.{FirstPut, IsCut, is_stop_or_mark, may_be_marked};

use crate::columns::{Column, put_field};
use crate::places::{put_number, shorten};
use crate::short::short_number;
use spl_value::{IntKind, NoMemory, Values};
use std::alloc::Global;

/// Whether a byte is a comma or means something else to `csv`.
#[inline]
fn stops(b: u8) -> bool
    ensures { result ≡ is_stop_or_mark b }
{
    b <= b',' && (b == b',' || (b == b'"' || (b == b'\r' || b == b'\n')))
}

/// Where the first field ends: at a comma, or with the line. `None` where a quote or a line's end
/// stands before that.
fn field_end(line: &[u8]) -> Option<usize>
    ensures { IfSome result (IsCut line.now) }
{
    for (i, b) in line.iter().enumerate() {
        if stops(*b) {
            if *b == b',' {
                return Some(i);
            }
            return None;
        }
    }
    Some(line.len())
}

/// Puts the value of a line's first field at a place, where the field is a short number of the kind, and answers where the
/// field ends. `None` says nothing of the line, and nothing was put.
#[inline(always)]
fn put_short(
    tuple: &mut Values,
    at: usize,
    kind: IntKind,
    line: &[u8],
) -> Result<Option<usize>, NoMemory>
    requires { at ≤ length tuple.old }
    ensures put { IfOk result (λ found. IfSome found (FirstPut (type_of (C.Int kind)) line.now at tuple.old tuple.new)) }
    ensures none { IfOk result (λ found. found ≡ None → tuple.new ≡ tuple.old) }
{
    match short_number(kind, line) {
        Some((n, end)) => {
            put_number(tuple, at, i128::from(n))?;
            Ok(Some(end))
        }
        None => Ok(None),
    }
}

/// The same of a field of any column that ends at a comma or with the line, where no quote and no line's end stands in it.
#[inline(always)]
fn put_cut(
    alloc: Global,
    tuple: &mut Values,
    at: usize,
    column: Column,
    line: &[u8],
) -> Result<Option<usize>, NoMemory>
    requires { at ≤ length tuple.old }
    ensures { IfOk result (λ found. IfSome found (FirstPut (type_of column) line.now at tuple.old tuple.new)) }
{
    let Some(end) = field_end(line) else {
        return Ok(None);
    };
    if put_field(alloc, tuple, at, column, &line[..end])? {
        Ok(Some(end))
    } else {
        Ok(None)
    }
}

/// The same of a field of any column.
#[inline(always)]
fn put_first(
    alloc: Global,
    tuple: &mut Values,
    at: usize,
    column: Column,
    line: &[u8],
) -> Result<Option<usize>, NoMemory>
    requires { at ≤ length tuple.old }
    ensures { IfOk result (λ found. IfSome found (FirstPut (type_of column) line.now at tuple.old tuple.new)) }
{
    if let Column::Int(kind) = column {
        if let Some(end) = put_short(tuple, at, kind, line)? {
            return Ok(Some(end));
        }
    }
    put_cut(alloc, tuple, at, column, line)
}

/// Puts the values of the fields between a line's commas, where they fit the columns and no quote,
/// carriage return or line feed stands in the line. `false` says nothing of the line.
pub(crate) fn read_plain(
    alloc: Global,
    tuple: &mut Values,
    columns: &[Column],
    line: &[u8],
) -> Result<bool, NoMemory>
    requires some { 0 < length line.now }
    requires mark { may_be_marked line.now ≡ false }
    ensures { IfOk result (λ plain. plain ≡ true
        → line_gives (attributes columns.now) line.now ≡ Row tuple.new) }
{
    let mut rest = line;
    let mut more = true;
    'columns: for (at, column) in columns.iter().enumerate() {
        if !more {
            return Ok(false);
        }
        let Some(end) = put_first(alloc, tuple, at, *column, rest)? else {
            return Ok(false);
        };
        if end < rest.len() {
            rest = &rest[end + 1..];
        } else {
            more = false;
        }
    }
    shorten(tuple, columns.len());
    Ok(!more)
}
