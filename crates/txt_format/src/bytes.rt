//! Bytes at places of a line.
ghost use Rattle.std.specs.Prelude.{◌≡◌, ◌≤◌, length, drop};
ghost use Rattle.txt_format.specs.TxtSpelling.{is_blank as blank_byte};
ghost use Rattle.txt_format.specs.steps.Bytes.{IsRest, past_blanks, past_byte, past_mark, past_name};
ghost use Rattle.txt_format.specs.steps.Reading.{IsSeparator, past_equals, past_separator};

#[inline]
fn is_blank(b: u8) -> bool
    ensures { result ≡ blank_byte b }
{
    b <= b' ' && (b == b' ' || (b == b'\t' || b == b'\r'))
}

/// Where the blanks at a place end.
#[inline]
pub(crate) fn skip_blanks(line: &[u8], at: usize) -> usize
    requires { at ≤ length line.now }
    ensures within { result ≤ length line.now }
    ensures rest { drop result line.now ≡ past_blanks (drop at line.now) }
{
    let mut end = at;
    'blanks: while end < line.len() {
        if !is_blank(line[end]) {
            return end;
        }
        end += 1;
    }
    end
}

/// Where the byte at a place ends, if it is this one.
#[inline]
pub(crate) fn skip_byte(line: &[u8], at: usize, byte: u8) -> Option<usize>
    requires { at ≤ length line.now }
    ensures { IsRest (past_byte byte (drop at line.now)) line.now result }
{
    if at < line.len() && line[at] == byte {
        Some(at + 1)
    } else {
        None
    }
}

/// Where the blanks behind a byte end, if it stands at a place, or behind blanks there.
#[inline]
pub(crate) fn skip_mark(line: &[u8], at: usize, byte: u8) -> Option<usize>
    requires { at ≤ length line.now }
    ensures { IsRest (past_mark byte (drop at line.now)) line.now result }
{
    let behind = skip_byte(line, skip_blanks(line, at), byte)?;
    Some(skip_blanks(line, behind))
}

/// Where a name at a place ends, if it stands there.
#[inline]
pub(crate) fn skip_name(line: &[u8], at: usize, name: &[u8]) -> Option<usize>
    requires { at ≤ length line.now }
    ensures { IsRest (past_name name.now (drop at line.now)) line.now result }
{
    if line[at..].starts_with(name) {
        Some(at + name.len())
    } else {
        None
    }
}

/// What stands behind an element, and where the next one begins, or where the brackets end.
#[derive(Clone, Copy)]
pub(crate) enum Separator {
    Comma(usize),
    Close(usize),
    Neither,
}

/// The comma, with blanks behind it, or the closing bracket that stands at a place, or behind blanks there.
#[inline]
pub(crate) fn skip_separator(line: &[u8], at: usize, close: u8) -> Separator
    requires { at ≤ length line.now }
    ensures { IsSeparator (past_separator close (past_blanks (drop at line.now))) line.now result }
{
    let at = skip_blanks(line, at);
    if at == line.len() {
        Separator::Neither
    } else if line[at] == b',' {
        Separator::Comma(skip_blanks(line, at + 1))
    } else if line[at] == close {
        Separator::Close(at + 1)
    } else {
        Separator::Neither
    }
}

/// Where the value of an attribute begins: behind a comma, unless the attribute is the first, its name, `=` and
/// blanks.
pub(crate) fn skip_equals(line: &[u8], at: usize, later: bool, name: &[u8]) -> Option<usize>
    requires { at ≤ length line.now }
    ensures { IsRest (past_equals later name.now (drop at line.now)) line.now result }
{
    let start = if later {
        skip_mark(line, at, b',')?
    } else {
        skip_blanks(line, at)
    };
    let behind = skip_name(line, start, name)?;
    skip_mark(line, behind, b'=')
}
