//! Texts at places of a line.
ghost use Rattle.std.specs.Prelude.{◌≡◌, ◌≤◌, ◌+◌, [], false, length, drop, IfOk};
ghost use Rattle.std.specs.List.{prefix_len};
ghost use Rattle.spl_value.specs.declared.value.Value.TheVariants as V;
ghost use Rattle.txt_format.specs.Escapes.{is_plain as plain_byte};
ghost use Rattle.txt_format.specs.steps.Bytes.{IsRead};
ghost use Rattle.txt_format.specs.steps.Reading.{as_other, meant, push, read_inside, read_text};

use crate::bytes::skip_byte;
use spl_value::{Items, NoMemory, Value, Values};
use std::alloc::Global;

#[inline]
fn is_plain(b: u8) -> bool
    ensures { result ≡ plain_byte b }
{
    !(b == b'"' || (b == b'\\' || b == b'\n'))
}

// Where the bytes that stand for themselves end.
fn plain_end(line: &[u8], at: usize) -> usize
    requires { at ≤ length line.now }
    ensures within { result ≤ length line.now }
    ensures end { result ≡ at + prefix_len plain_byte (drop at line.now) }
{
    let mut end = at;
    'plain: while end < line.len() {
        if !is_plain(line[end]) {
            return end;
        }
        end += 1;
    }
    end
}

// The byte that a backslash and this byte stand for.
fn escape(b: u8) -> Option<u8>
    ensures { result ≡ meant b }
{
    match b {
        b'"' => Some(b'"'),
        b'\'' => Some(b'\''),
        b'\\' => Some(b'\\'),
        b'n' => Some(b'\n'),
        b't' => Some(b'\t'),
        b'r' => Some(b'\r'),
        _ => None,
    }
}

// Adds the bytes that stand in a text from a place on, and tells where its closing quote ends.
#[inline(never)]
fn add_inside(text: &mut Vec<u8>, line: &[u8], at: usize) -> Result<Option<usize>, NoMemory>
    requires { at ≤ length line.now }
    ensures { IfOk result (IsRead (read_inside false text.old.items (drop at line.now)) line.now text.new.items) }
{
    let mut slash = false;
    'bytes: for i in at..line.len() {
        let b = line[i];
        if slash {
            let Some(m) = escape(b) else {
                return Ok(None);
            };
            text.push(m)?;
            slash = false;
        } else if b == b'"' {
            return Ok(Some(i + 1));
        } else if b == b'\\' {
            slash = true;
        } else if b == b'\n' {
            return Ok(None);
        } else {
            text.push(b)?;
        }
    }
    Ok(None)
}

// Adds a text with escapes, from behind its opening quote on.
#[inline(never)]
fn add_escaped(
    alloc: Global,
    values: &mut Values,
    line: &[u8],
    at: usize,
) -> Result<Option<usize>, NoMemory>
    requires { at ≤ length line.now }
    ensures { IfOk result (IsRead (as_other (λ bytes. push values.old (V.Text bytes)) (read_inside false [] (drop at line.now))) line.now values.new) }
{
    let mut text = Vec::new(alloc);
    let Some(end) = add_inside(&mut text, line, at)? else {
        return Ok(None);
    };
    values.push(Value::Text(Items::from_vec(text)))?;
    Ok(Some(end))
}

// Adds the text whose bytes begin at a place, behind its opening quote. One without a backslash is copied at once.
fn add_opened(
    alloc: Global,
    values: &mut Values,
    line: &[u8],
    at: usize,
) -> Result<Option<usize>, NoMemory>
    requires { at ≤ length line.now }
    ensures { IfOk result (IsRead (as_other (λ bytes. push values.old (V.Text bytes)) (read_inside false [] (drop at line.now))) line.now values.new) }
{
    let end = plain_end(line, at);
    if end < line.len() && line[end] == b'"' {
        values.push(Value::Text(Items::from_slice(alloc, &line[at..end])?))?;
        Ok(Some(end + 1))
    } else {
        add_escaped(alloc, values, line, at)
    }
}

/// Adds the text at a place, and tells where its closing quote ends. `None` where no quote opens one, or it isn't
/// closed, or has another escape than the six, or a line feed.
pub(crate) fn add_text(
    alloc: Global,
    values: &mut Values,
    line: &[u8],
    at: usize,
) -> Result<Option<usize>, NoMemory>
    requires { at ≤ length line.now }
    ensures { IfOk result (IsRead (as_other (push values.old) (read_text (drop at line.now))) line.now values.new) }
{
    match skip_byte(line, at, b'"') {
        Some(behind) => add_opened(alloc, values, line, behind),
        None => Ok(None),
    }
}
