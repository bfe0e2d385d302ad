//! A line with a quote, a carriage return or a byte order mark, read as `csv` reads it.
ghost use Rattle.std.specs.Prelude.{◌≡◌, ◌≤◌, ◌<◌, ◌+◌, ◌==◌, ◌&&◌, nat_lt, min, [], ℕ, List, true, false, drop, length, slice_index, take, IfOk, IfSome};
ghost use Rattle.csv.specs.Machine.{next_record};
ghost use Rattle.csv.specs.Reading.{default_config, records, strip_bom};
ghost use Rattle.csv.specs.declared.parser.State.TheVariants as st;
ghost use Rattle.stream_model.specs.Rows.{line_gives, of_records};
ghost use Rattle.row_reader.specs.Columns.{attributes, type_of};
ghost use Rattle.row_reader.specs.steps.Marked.{IsRun, MarkedField, StopsAt, first_record, given_of};

use crate::columns::{Column, put_field};
use crate::find::find;
use crate::places::shorten;
use spl_value::{NoMemory, Values};
use std::alloc::Global;

/// What a line gives. The values of a row stand beside it.
#[derive(Clone, Copy)]
pub enum LineGives {
    Row,
    Nothing,
    Bad,
}

fn begins_marked(line: &[u8]) -> bool
    ensures { result ≡ Rattle.row_reader.specs.steps.Marked.begins_marked line.now }
{
    line.len() >= 3 && (line[0] == 0xEF && (line[1] == 0xBB && line[2] == 0xBF))
}

/// The line after a byte order mark.
fn behind_mark(line: &[u8]) -> &[u8]
    ensures { result.now ≡ strip_bom line.now }
{
    if begins_marked(line) {
        &line[3..]
    } else {
        line
    }
}

fn is_end(b: u8) -> bool
    ensures { result ≡ Rattle.row_reader.specs.steps.Marked.is_end b }
{
    b == b'\r' || b == b'\n'
}

fn is_stop(b: u8) -> bool
    ensures { result ≡ Rattle.row_reader.specs.steps.Marked.is_stop b }
{
    b == b',' || is_end(b)
}

/// The first place from here on that has no carriage return and no line feed.
fn behind_ends(text: &[u8], from: usize) -> usize
    requires { from ≤ length text.now }
    ensures within { result ≤ length text.now }
    ensures same { first_record (drop result text.now) ≡ first_record (drop from text.now) }
    ensures stop { result < length text.now → Rattle.row_reader.specs.steps.Marked.is_end (slice_index text.now result) ≡ false }
{
    let mut at = from;
    'ends: while at < text.len() {
        if !is_end(text[at]) {
            return at;
        }
        at += 1;
    }
    at
}

/// The first place from here on where a field ends that isn't in quotes.
fn run_end(text: &[u8], from: usize) -> usize
    requires { from ≤ length text.now }
    ensures run { IsRun text.now from result }
    ensures stop { StopsAt text.now result }
{
    let mut at = from;
    'run: while at < text.len() {
        if is_stop(text[at]) {
            return at;
        }
        at += 1;
    }
    at
}

/// Adds what stands in quotes that are opened in front of this place, and answers the place after
/// it.
fn add_quoted(field: &mut Vec<u8>, text: &[u8], from: usize) -> Result<usize, NoMemory>
    requires { from ≤ length text.now }
    ensures within { IfOk result (λ end. end ≤ length text.now) }
    ensures read { IfOk result (λ end. (fields : List (List ℕ))
        → next_record default_config st.InQuoted fields field.old.items (drop from text.now)
        ≡ next_record default_config st.InField fields field.new.items (drop end text.now)) }
{
    let mut at = from;
    'runs: while at < text.len() {
        let Some(before) = find(b'"', &text[at..]) else {
            field.extend_from_slice(&text[at..])?;
            return Ok(text.len());
        };
        field.extend_from_slice(&text[at..at + before])?;
        at += before + 1;
        if at < text.len() && text[at] == b'"' {
            field.push(b'"')?;
            at += 1;
        } else {
            return Ok(at);
        }
    }
    Ok(at)
}

/// Puts the value of a field that begins with a quote.
fn put_quoted_field(
    alloc: Global,
    tuple: &mut Values,
    place: usize,
    field: &mut Vec<u8>,
    column: Column,
    text: &[u8],
    at: usize,
) -> Result<Option<usize>, NoMemory>
    requires room { place ≤ length tuple.old }
    requires within { at < length text.now }
    requires quote { slice_index text.now at ≡ 34 }
    ensures put { IfOk result (MarkedField (type_of column) text.now at (take place tuple.old) (take (place + 1) tuple.new)) }
    ensures room { IfOk result (λ end. IfSome end (λ _. place + 1 ≤ length tuple.new)) }
{
    field.clear();
    let closed = add_quoted(field, text, at + 1)?;
    let end = run_end(text, closed);
    field.extend_from_slice(&text[closed..end])?;
    if put_field(alloc, tuple, place, column, field.as_slice())? {
        Ok(Some(end))
    } else {
        Ok(None)
    }
}

/// Puts the value of a field that doesn't begin with a quote.
fn put_bare_field(
    alloc: Global,
    tuple: &mut Values,
    place: usize,
    column: Column,
    text: &[u8],
    at: usize,
) -> Result<Option<usize>, NoMemory>
    requires room { place ≤ length tuple.old }
    requires within { at ≤ length text.now }
    requires bare { at < length text.now → slice_index text.now at ≡ 34 → ⊥ }
    ensures put { IfOk result (MarkedField (type_of column) text.now at (take place tuple.old) (take (place + 1) tuple.new)) }
    ensures room { IfOk result (λ end. IfSome end (λ _. place + 1 ≤ length tuple.new)) }
{
    let end = run_end(text, at);
    if put_field(alloc, tuple, place, column, &text[at..end])? {
        Ok(Some(end))
    } else {
        Ok(None)
    }
}

/// Puts the value of the field that begins here at a place of the tuple, where it fits the column, and answers where the
/// field ends.
fn put_marked_field(
    alloc: Global,
    tuple: &mut Values,
    place: usize,
    field: &mut Vec<u8>,
    column: Column,
    text: &[u8],
    at: usize,
) -> Result<Option<usize>, NoMemory>
    requires room { place ≤ length tuple.old }
    requires within { at ≤ length text.now }
    ensures put { IfOk result (MarkedField (type_of column) text.now at (take place tuple.old) (take (place + 1) tuple.new)) }
    ensures room { IfOk result (λ end. IfSome end (λ _. place + 1 ≤ length tuple.new)) }
{
    if at < text.len() && text[at] == b'"' {
        put_quoted_field(alloc, tuple, place, field, column, text, at)
    } else {
        put_bare_field(alloc, tuple, place, column, text, at)
    }
}

/// Whether a comma stands here.
fn is_comma_at(text: &[u8], at: usize) -> bool
    ensures { result ≡ (nat_lt at (length text.now) && (slice_index text.now at == 44)) }
{
    at < text.len() && text[at] == b','
}

/// The next place, or the end.
fn next_place(text: &[u8], at: usize) -> usize
    ensures { result ≡ min (at + 1) (length text.now) }
{
    if at < text.len() { at + 1 } else { text.len() }
}

/// Reads the first record of a text, which begins here, as the fields of a row, and looks for a
/// second one after it. The values of a row stand in the tuple then.
fn read_record(
    alloc: Global,
    tuple: &mut Values,
    field: &mut Vec<u8>,
    columns: &[Column],
    text: &[u8],
    from: usize,
) -> Result<LineGives, NoMemory>
    requires within { from < length text.now }
    requires starts { first_record text.now
        ≡ next_record default_config st.StartField [] [] (drop from text.now) }
    ensures { IfOk result (λ given. of_records (attributes columns.now)
        (records default_config text.now) ≡ given_of given tuple.new) }
{
    let mut at = from;
    let mut more = true;
    'columns: for (place, column) in columns.iter().enumerate() {
        if !more {
            return Ok(LineGives::Bad);
        }
        match put_marked_field(alloc, tuple, place, field, *column, text, at)? {
            None => return Ok(LineGives::Bad),
            Some(end) => {
                more = is_comma_at(text, end);
                at = next_place(text, end);
            }
        }
    }
    if more {
        return Ok(LineGives::Bad);
    }
    if behind_ends(text, at) < text.len() {
        return Ok(LineGives::Bad);
    }
    shorten(tuple, columns.len());
    Ok(LineGives::Row)
}

/// Reads any line. The field is empty before it.
#[cold]
#[inline(never)]
pub(crate) fn read_marked(
    alloc: Global,
    tuple: &mut Values,
    field: &mut Vec<u8>,
    columns: &[Column],
    line: &[u8],
) -> Result<LineGives, NoMemory>
    ensures { IfOk result (λ given. line_gives (attributes columns.now) line.now
        ≡ given_of given tuple.new) }
{
    let text = behind_mark(line);
    let from = behind_ends(text, 0);
    if from < text.len() {
        read_record(alloc, tuple, field, columns, text, from)
    } else {
        Ok(LineGives::Nothing)
    }
}
