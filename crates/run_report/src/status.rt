//! The line that tells why the program ended.
ghost use Rattle.std.specs.Prelude.{◌≡◌, ◌++◌, codes, None, if◌then◌else◌, IfOk};
ghost use Rattle.std.specs.Option.{option_copied};
ghost use Rattle.language_model.specs.Refusals.{told_code};
ghost use Rattle.run_report.specs.Texts.{refusal_text, kind_text, has_line, stopped_text, operator_name, status_text};

use crate::Cause;
use itoa::Buffer;
use language_model::{Checked, Refusal, code_text, has_name};
use spl_value::{Bytes, Fault, FaultKind, Items, Name, NoMemory};
use std::alloc::Global;

// The name that a refusal is told with, if any.
fn name(refusal: &Refusal) -> Option<&Name>
    ensures { option_copied result ≡ (if (told_code refusal.now.code).1 then refusal.now.name else None) }
{
    if has_name(refusal.code) {
        refusal.name.as_ref()
    } else {
        None
    }
}

// The line that tells a refusal.
fn refusal_line(alloc: Global, refusal: &Refusal) -> Result<Bytes, NoMemory>
    ensures { IfOk result (λ line. line ≡ refusal_text refusal.now) }
{
    let mut line = Vec::new(alloc);
    let mut digits = Buffer::new();
    line.extend_from_slice(b"refused ")?;
    line.extend_from_slice(code_text(refusal.code))?;
    line.extend_from_slice(b" at ")?;
    line.extend_from_slice(digits.format(refusal.at).as_bytes())?;
    if let Some(name) = name(refusal) {
        line.push(b' ')?;
        line.extend_from_slice(name.as_slice())?;
    }
    line.push(b'\n')?;
    Ok(Items::from_vec(line))
}

// The kind of a fault, as it is told.
fn kind(kind: FaultKind) -> &'static [u8]
    ensures { result.now ≡ kind_text kind }
{
    match kind {
        FaultKind::DivZero => b"DivZero",
        FaultKind::Index => b"Index",
        FaultKind::NoKey => b"NoKey",
        FaultKind::Turns => b"Turns",
        FaultKind::BadRow => b"BadRow",
        FaultKind::LongRow => b"LongRow",
        FaultKind::LongFile => b"LongFile",
        FaultKind::ReadFailed => b"ReadFailed",
    }
}

// Whether a fault of that kind is told with its line.
fn has_line(kind: FaultKind) -> bool
    ensures { result ≡ has_line kind }
{
    match kind {
        FaultKind::BadRow | FaultKind::LongRow | FaultKind::LongFile | FaultKind::ReadFailed =>
            true,
        FaultKind::DivZero | FaultKind::Index | FaultKind::NoKey | FaultKind::Turns => false,
    }
}

// The name of the operator with that number. Where there is none, it is empty.
pub(crate) fn operator(checked: Option<&Checked>, number: u32) -> &[u8]
    ensures { result.now ≡ operator_name (option_copied checked.entry) number }
{
    let Some(checked) = checked else {
        return &[];
    };
    match checked.graph.ops.get(number as usize) {
        Some(op) => op.name.as_slice(),
        None => &[],
    }
}

// The line that tells a fault of the operator with that name.
pub(crate) fn stopped_line(alloc: Global, name: &[u8], fault: Fault) -> Result<Bytes, NoMemory>
    ensures { IfOk result (λ line. line ≡ stopped_text name.now fault) }
{
    let mut line = Vec::new(alloc);
    let mut digits = Buffer::new();
    line.extend_from_slice(b"stopped ")?;
    line.extend_from_slice(name)?;
    line.push(b' ')?;
    line.extend_from_slice(kind(fault.kind))?;
    if has_line(fault.kind) {
        line.extend_from_slice(b" line ")?;
        line.extend_from_slice(digits.format(fault.line).as_bytes())?;
    }
    line.push(b'\n')?;
    Ok(Items::from_vec(line))
}

// A line of a text and a name.
fn named_line(alloc: Global, text: &[u8], name: &[u8]) -> Result<Bytes, NoMemory>
    ensures { IfOk result (λ line. line ≡ text.now ++ name.now ++ codes "\n") }
{
    let mut line = Vec::new(alloc);
    line.extend_from_slice(text)?;
    line.extend_from_slice(name)?;
    line.push(b'\n')?;
    Ok(Items::from_vec(line))
}

// The line that tells that an arrival record is bad, and for which operator.
fn bad_arrivals_line(
    alloc: Global,
    checked: Option<&Checked>,
    op: Option<u32>,
) -> Result<Bytes, NoMemory>
    ensures { IfOk result (λ line. line ≡ status_text (option_copied checked.entry) (Cause.BadArrivals op)) }
{
    match op {
        None => Ok(Items::from_slice(alloc, b"bad arrivals\n")?),
        Some(op) => named_line(alloc, b"bad arrivals at ", operator(checked, op)),
    }
}

/// The line that tells why the program ended. It is empty where the request was carried out. `checked` gives
/// the operator's name after a fault, and after an arrival record that isn't whole; where it lacks the operator,
/// the name is empty.
pub fn status_text(
    alloc: Global,
    checked: Option<&Checked>,
    cause: &Cause,
) -> Result<Bytes, NoMemory>
    ensures { IfOk result (λ text. text ≡ status_text (option_copied checked.entry) cause.now) }
{
    match cause {
        Cause::Done => Ok(Items::new(alloc)),
        Cause::BadWords => Ok(Items::from_slice(alloc, b"bad words\n")?),
        Cause::Refused(refusal) => refusal_line(alloc, refusal),
        Cause::Stopped(fault) => stopped_line(alloc, operator(checked, fault.op), *fault),
        Cause::NotBuilt => Ok(Items::from_slice(alloc, b"not built\n")?),
        Cause::OpenFailed(name) => named_line(alloc, b"cannot open ", name.as_slice()),
        Cause::ReadFailed(name) => named_line(alloc, b"cannot read ", name.as_slice()),
        Cause::WriteFailed(name) => named_line(alloc, b"cannot write ", name.as_slice()),
        Cause::BadArrivals(op) => bad_arrivals_line(alloc, checked, *op),
        Cause::NoMemory => Ok(Items::from_slice(alloc, b"no memory\n")?),
    }
}
