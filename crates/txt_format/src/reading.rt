//! Tuples from lines.
ghost use Rattle.std.specs.Prelude.{◌≡◌, ◌↔◌, ◌≤◌, true, false, length, drop, IfOk, OnOk, List, IsTrue};
ghost use Rattle.spl_value.specs.declared.value.Value.{Value};
ghost use Rattle.spl_value.specs.Pairs.{are_pairs};
ghost use Rattle.txt_format.specs.declared.reading.TxtRow.TheVariants as R;
ghost use Rattle.txt_format.specs.TxtSpelling.{are_blanks, txt_spells};
ghost use Rattle.txt_format.specs.steps.Bytes.{IsRead};
ghost use Rattle.txt_format.specs.steps.Reading.{IsPairOf, IsPut, as_other, push, push_pair, put, read_fields, read_line, read_list, read_map, read_opened, read_pair_of, read_tuple, read_value};

use crate::bytes::{Separator, skip_blanks, skip_byte, skip_equals, skip_mark, skip_separator};
use crate::numbers::{add_integer, add_truth};
use crate::texts::add_text;
use spl_value::{Attribute, Items, NoMemory, Pairs, Schema, SegmentedList, SplType, Value, Values};
use std::alloc::Global;

/// What a line gives.
#[derive(Drop)]
pub enum TxtRow {
    /// Nothing but blanks.
    Empty,
    /// The tuple that it spells.
    Row(Values),
    /// Anything else.
    Bad,
}

// Adds the value at a place, and tells where it ends. `None` where there is none of the type.
#[cycle(values)]
#[tactic(auto, using(crate::proofs::ReadingLaws::reading_laws))]
fn add_value(
    alloc: Global,
    kind: &SplType,
    values: &mut Values,
    line: &[u8],
    at: usize,
) -> Result<Option<usize>, NoMemory>
    requires { at ≤ length line.now }
    ensures { IfOk result (IsRead (as_other (push values.old) (read_value kind.now (drop at line.now))) line.now values.new) }
{
    match kind {
        SplType::Int(kind) => add_integer(values, *kind, line, at),
        SplType::Bool => add_truth(values, line, at),
        SplType::Text => add_text(alloc, values, line, at),
        SplType::List(element) => add_list(alloc, element.get(), values, line, at),
        SplType::Map(_, _) => add_map(alloc, kind, values, line, at),
        SplType::Tuple(schema) => add_tuple(alloc, schema.as_slice(), values, line, at),
    }
}

#[cycle(values)]
#[inline(never)]
fn add_list(
    alloc: Global,
    element: &SplType,
    values: &mut Values,
    line: &[u8],
    at: usize,
) -> Result<Option<usize>, NoMemory>
    requires { at ≤ length line.now }
    ensures { IfOk result (IsRead (as_other (push values.old) (read_list (read_value element.now) (drop at line.now))) line.now values.new) }
{
    let Some(behind) = skip_byte(line, at, b'[') else {
        return Ok(None);
    };
    let mut elements = Items::new(alloc);
    let start = skip_blanks(line, behind);
    let Some(end) = add_elements(alloc, element, &mut elements, line, start)? else {
        return Ok(None);
    };
    values.push(Value::List(elements))?;
    Ok(Some(end))
}

// Adds the elements from a place on, and tells where their closing bracket ends. No more are looked for than there
// are bytes.
#[cycle(values)]
#[inline(never)]
fn add_elements(
    alloc: Global,
    element: &SplType,
    elements: &mut Values,
    line: &[u8],
    start: usize,
) -> Result<Option<usize>, NoMemory>
    requires { start ≤ length line.now }
    ensures { IfOk result (IsRead (read_opened (read_value element.now) push 93 elements.old (drop start line.now)) line.now elements.new) }
{
    if let Some(end) = skip_byte(line, start, b']') {
        return Ok(Some(end));
    }
    let mut at = start;
    'elements: for _count in start..line.len() {
        let Some(end) = add_value(alloc, element, elements, line, at)? else {
            return Ok(None);
        };
        match skip_separator(line, end, b']') {
            Separator::Comma(next) => at = next,
            Separator::Close(end) => return Ok(Some(end)),
            Separator::Neither => return Ok(None),
        }
    }
    Ok(None)
}

#[cycle(values)]
#[inline(never)]
fn add_map(
    alloc: Global,
    kind: &SplType,
    values: &mut Values,
    line: &[u8],
    at: usize,
) -> Result<Option<usize>, NoMemory>
    requires { at ≤ length line.now }
    ensures { IfOk result (IsRead (as_other (push values.old) (read_map (read_pair_of kind.now) (drop at line.now))) line.now values.new) }
{
    let Some(behind) = skip_byte(line, at, b'{') else {
        return Ok(None);
    };
    let mut pairs = SegmentedList::new(alloc);
    let start = skip_blanks(line, behind);
    let Some(end) = add_pairs(alloc, kind, &mut pairs, line, start)? else {
        return Ok(None);
    };
    values.push(Value::Map(pairs))?;
    Ok(Some(end))
}

// Puts the pairs from a place on, and tells where their closing bracket ends.
#[cycle(values)]
#[inline(never)]
fn add_pairs(
    alloc: Global,
    kind: &SplType,
    pairs: &mut Pairs,
    line: &[u8],
    start: usize,
) -> Result<Option<usize>, NoMemory>
    requires within { start ≤ length line.now }
    requires sorted { IsTrue (are_pairs pairs.old) }
    ensures { IfOk result (IsRead (read_opened (read_pair_of kind.now) put 125 pairs.old (drop start line.now)) line.now pairs.new) }
{
    if let Some(end) = skip_byte(line, start, b'}') {
        return Ok(Some(end));
    }
    let mut pair = Items::new(alloc);
    let mut at = start;
    'pairs: for _count in start..line.len() {
        let Some(end) = add_pair(alloc, kind, &mut pair, line, at)? else {
            return Ok(None);
        };
        put_pair(pairs, &mut pair)?;
        match skip_separator(line, end, b'}') {
            Separator::Comma(next) => at = next,
            Separator::Close(end) => return Ok(Some(end)),
            Separator::Neither => return Ok(None),
        }
    }
    Ok(None)
}

// Adds the key and the value of the pair at a place, and tells where it ends. `None` where there is none, or the type
// is no map's.
#[cycle(values)]
#[tactic(auto, using(crate::proofs::ReadingLaws::reading_laws))]
fn add_pair(
    alloc: Global,
    kind: &SplType,
    pair: &mut Values,
    line: &[u8],
    at: usize,
) -> Result<Option<usize>, NoMemory>
    requires { at ≤ length line.now }
    ensures { IfOk result (IsRead (as_other (push_pair pair.old) (read_pair_of kind.now (drop at line.now))) line.now pair.new) }
{
    let SplType::Map(key, held) = kind else {
        return Ok(None);
    };
    let Some(end) = add_value(alloc, key.get(), pair, line, at)? else {
        return Ok(None);
    };
    match skip_mark(line, end, b':') {
        Some(behind) => add_value(alloc, held.get(), pair, line, behind),
        None => Ok(None),
    }
}

// Puts a key and its value, and leaves the list of the two empty.
fn put_pair(pairs: &mut Pairs, pair: &mut Values) -> Result<(), NoMemory>
    requires sorted { IsTrue (are_pairs pairs.old) }
    requires two { IsPairOf pair.old }
    ensures put { OnOk result (IsPut pairs.old pair.old pairs.new pair.new) }
    ensures sorted { IsTrue (are_pairs pairs.new) }
{
    let Some(held) = pair.pop() else {
        unreachable!();
    };
    let Some(key) = pair.pop() else {
        unreachable!();
    };
    pairs.put(key, held)
}

#[cycle(values)]
#[inline(never)]
fn add_tuple(
    alloc: Global,
    schema: &[Attribute],
    values: &mut Values,
    line: &[u8],
    at: usize,
) -> Result<Option<usize>, NoMemory>
    requires { at ≤ length line.now }
    ensures { IfOk result (IsRead (as_other (push values.old) (read_tuple read_value schema.now (drop at line.now))) line.now values.new) }
{
    let Some(behind) = skip_byte(line, at, b'{') else {
        return Ok(None);
    };
    let mut own = Items::with_capacity(alloc, schema.len())?;
    let Some(end) = add_fields(alloc, schema, &mut own, line, behind)? else {
        return Ok(None);
    };
    values.push(Value::Tuple(own))?;
    Ok(Some(end))
}

// Adds the values of attributes, which stand from a place on in the order of the schema, and tells where their
// closing bracket ends.
#[cycle(values)]
fn add_fields(
    alloc: Global,
    schema: &[Attribute],
    values: &mut Values,
    line: &[u8],
    start: usize,
) -> Result<Option<usize>, NoMemory>
    requires { start ≤ length line.now }
    ensures { IfOk result (IsRead (read_fields read_value false schema.now values.old (drop start line.now)) line.now values.new) }
{
    let mut at = start;
    let mut later = false;
    'fields: for attribute in schema {
        let Some(behind) = skip_equals(line, at, later, attribute.name.as_slice()) else {
            return Ok(None);
        };
        let Some(end) = add_value(alloc, &attribute.kind, values, line, behind)? else {
            return Ok(None);
        };
        at = end;
        later = true;
    }
    Ok(skip_byte(line, skip_blanks(line, at), b'}'))
}

// What a line gives.
fn line_row(alloc: Global, schema: &[Attribute], line: &[u8]) -> Result<TxtRow, NoMemory>
    ensures { IfOk result (λ row. row ≡ read_line schema.now line.now) }
{
    let start = skip_blanks(line, 0);
    if start == line.len() {
        return Ok(TxtRow::Empty);
    }
    let Some(behind) = skip_byte(line, start, b'{') else {
        return Ok(TxtRow::Bad);
    };
    let mut values = Items::with_capacity(alloc, schema.len())?;
    let Some(end) = add_fields(alloc, schema, &mut values, line, behind)? else {
        return Ok(TxtRow::Bad);
    };
    if skip_blanks(line, end) == line.len() {
        Ok(TxtRow::Row(values))
    } else {
        Ok(TxtRow::Bad)
    }
}

/// What a line gives: nothing where it is blank, the tuple of the schema that it spells, or bad.
pub fn read_row(alloc: Global, schema: &Schema, line: &[u8]) -> Result<TxtRow, NoMemory>
    ensures empty { IfOk result (λ row. (row ≡ R.Empty) ↔ (are_blanks line.now ≡ true)) }
    ensures row { IfOk result (λ row. (vs : List Value) → (row ≡ R.Row vs) ↔ txt_spells schema.now line.now vs) }
{
    line_row(alloc, schema.as_slice(), line)
}
