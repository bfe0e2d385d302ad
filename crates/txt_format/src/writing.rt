//! Lines from tuples.
ghost use Rattle.std.specs.Prelude.{◌≡◌, ◌++◌, IfOk, OnOk, map, List};
ghost use Rattle.std.specs.Fmt.{signed_decimal};
ghost use Rattle.std.specs.List.{list_all};
ghost use Rattle.spl_value.specs.declared.value.Value.{Value};
ghost use Rattle.txt_format.specs.Escapes.{escaped, written};
ghost use Rattle.txt_format.specs.TxtText.{attribute_texts, bracketed, pair_text, quoted, truth_text, txt_text, value_text};
ghost use Rattle.txt_format.specs.steps.Writing.{comma, is_kept as kept_byte};

use itoa::Buffer;
use spl_value::{Attribute, Bytes, Items, NoMemory, Pairs, Schema, SplType, Value, Values};
use std::alloc::Global;

#[inline]
fn is_kept(b: u8) -> bool
    ensures { result ≡ kept_byte b }
{
    !(b == b'"' || (b == b'\\' || (b == b'\n' || (b == b'\t' || b == b'\r'))))
}

// Adds a byte of a text as it is written.
fn add_written(text: &mut Vec<u8>, b: u8) -> Result<(), NoMemory>
    ensures { OnOk result (text.new.items ≡ text.old.items ++ written b) }
{
    match b {
        b'"' => text.extend_from_slice(b"\\\"")?,
        b'\\' => text.extend_from_slice(b"\\\\")?,
        b'\n' => text.extend_from_slice(b"\\n")?,
        b'\t' => text.extend_from_slice(b"\\t")?,
        b'\r' => text.extend_from_slice(b"\\r")?,
        _ => text.push(b)?,
    }
    Ok(())
}

#[inline(never)]
fn add_escaped(text: &mut Vec<u8>, bytes: &[u8]) -> Result<(), NoMemory>
    ensures { OnOk result (text.new.items ≡ text.old.items ++ escaped bytes.now) }
{
    for b in bytes {
        add_written(text, *b)?;
    }
    Ok(())
}

// Whether each byte is written as it is.
fn are_kept(bytes: &[u8]) -> bool
    ensures { result ≡ list_all kept_byte bytes.now }
{
    bytes.iter().all(|b| is_kept(*b))
}

// Adds bytes as they are written between quotes. They are copied at once where none is escaped.
#[tactic(auto, using(crate::proofs::Pieces::kept_escaped))]
fn add_inside(text: &mut Vec<u8>, bytes: &[u8]) -> Result<(), NoMemory>
    ensures { OnOk result (text.new.items ≡ text.old.items ++ escaped bytes.now) }
{
    if are_kept(bytes) {
        text.extend_from_slice(bytes)?;
        Ok(())
    } else {
        add_escaped(text, bytes)
    }
}

fn add_quoted(text: &mut Vec<u8>, bytes: &[u8]) -> Result<(), NoMemory>
    ensures { OnOk result (text.new.items ≡ text.old.items ++ quoted bytes.now) }
{
    text.push(b'"')?;
    add_inside(text, bytes)?;
    text.push(b'"')?;
    Ok(())
}

// Adds the digits of a number of 64 bits.
fn add_short_number(text: &mut Vec<u8>, n: i64) -> Result<(), NoMemory>
    ensures { OnOk result (text.new.items ≡ text.old.items ++ signed_decimal n) }
{
    let mut digits = Buffer::new();
    text.extend_from_slice(digits.format(n).as_bytes())?;
    Ok(())
}

#[cold]
#[inline(never)]
fn add_long_number(text: &mut Vec<u8>, n: i128) -> Result<(), NoMemory>
    ensures { OnOk result (text.new.items ≡ text.old.items ++ signed_decimal n) }
{
    let mut digits = Buffer::new();
    text.extend_from_slice(digits.format(n).as_bytes())?;
    Ok(())
}

fn add_number(text: &mut Vec<u8>, n: i128) -> Result<(), NoMemory>
    ensures { OnOk result (text.new.items ≡ text.old.items ++ signed_decimal n) }
{
    if -0x8000_0000_0000_0000 <= n && n < 0x8000_0000_0000_0000 {
        add_short_number(text, n as i64)
    } else {
        add_long_number(text, n)
    }
}

fn add_truth(text: &mut Vec<u8>, b: bool) -> Result<(), NoMemory>
    ensures { OnOk result (text.new.items ≡ text.old.items ++ truth_text b) }
{
    if b {
        text.extend_from_slice(b"true")?;
    } else {
        text.extend_from_slice(b"false")?;
    }
    Ok(())
}

// Adds the comma before a later piece.
#[inline]
fn add_comma(text: &mut Vec<u8>, later: bool) -> Result<(), NoMemory>
    ensures { OnOk result (text.new.items ≡ text.old.items ++ comma later) }
{
    if later {
        text.push(b',')?;
    }
    Ok(())
}

// Adds the text of a value of a type, and nothing where the value belongs to none of its form.
#[cycle(values)]
#[tactic(auto, using(crate::proofs::TextLaws::text_laws))]
fn add_value(text: &mut Vec<u8>, value: &Value, kind: &SplType) -> Result<(), NoMemory>
    ensures { OnOk result (text.new.items ≡ text.old.items ++ value_text kind.now value.now) }
{
    match (value, kind) {
        (Value::Int(n), SplType::Int(_)) => add_number(text, *n),
        (Value::Bool(b), SplType::Bool) => add_truth(text, *b),
        (Value::Text(bytes), SplType::Text) => add_quoted(text, bytes.as_slice()),
        (Value::List(values), SplType::List(element)) => {
            add_elements(text, values.as_slice(), element.get())
        }
        (Value::Map(pairs), SplType::Map(key, kind)) => {
            add_pairs(text, pairs, key.get(), kind.get())
        }
        (Value::Tuple(values), SplType::Tuple(schema)) => {
            add_attributes(text, values.as_slice(), schema.as_slice())
        }
        _ => Ok(()),
    }
}

#[cycle(values)]
#[inline(never)]
fn add_elements(text: &mut Vec<u8>, values: &[Value], element: &SplType) -> Result<(), NoMemory>
    ensures { OnOk result (text.new.items ≡ text.old.items ++ bracketed 91 93 (map (value_text element.now) values.now)) }
{
    text.push(b'[')?;
    let mut later = false;
    'elements: for value in values {
        add_comma(text, later)?;
        add_value(text, value, element)?;
        later = true;
    }
    text.push(b']')?;
    Ok(())
}

#[cycle(values)]
#[inline(never)]
fn add_pairs(
    text: &mut Vec<u8>,
    pairs: &Pairs,
    key: &SplType,
    kind: &SplType,
) -> Result<(), NoMemory>
    ensures { OnOk result (text.new.items ≡ text.old.items ++ bracketed 123 125 (map (pair_text (value_text key.now) (value_text kind.now)) pairs.now)) }
{
    text.push(b'{')?;
    let mut later = false;
    'pairs: for pair in pairs {
        add_comma(text, later)?;
        add_value(text, &pair.0, key)?;
        text.push(b':')?;
        add_value(text, &pair.1, kind)?;
        later = true;
    }
    text.push(b'}')?;
    Ok(())
}

#[cycle(values)]
fn add_attributes(
    text: &mut Vec<u8>,
    values: &[Value],
    schema: &[Attribute],
) -> Result<(), NoMemory>
    ensures { OnOk result (text.new.items ≡ text.old.items ++ bracketed 123 125 (attribute_texts value_text schema.now values.now)) }
{
    text.push(b'{')?;
    let mut later = false;
    let mut rest = schema;
    'values: for value in values {
        let [attribute, others @ ..] = rest else {
            break;
        };
        add_comma(text, later)?;
        text.extend_from_slice(attribute.name.as_slice())?;
        text.push(b'=')?;
        add_value(text, value, &attribute.kind)?;
        rest = others;
        later = true;
    }
    text.push(b'}')?;
    Ok(())
}

/// Adds the text of a tuple: `{name=value,..}` in the order of the schema, without blanks. A value of another form
/// than its attribute's type is written as nothing.
pub fn add_row(text: &mut Vec<u8>, schema: &[Attribute], tuple: &[Value]) -> Result<(), NoMemory>
    ensures { OnOk result (text.new.items ≡ text.old.items ++ txt_text schema.now tuple.now) }
{
    add_attributes(text, tuple, schema)
}

/// The text of a tuple, as `add_row` adds it.
pub fn write_row(alloc: Global, schema: &Schema, tuple: &Values) -> Result<Bytes, NoMemory>
    ensures { IfOk result (λ text. text ≡ txt_text schema.now tuple.now) }
{
    let mut text = Vec::new(alloc);
    add_row(&mut text, schema.as_slice(), tuple.as_slice())?;
    Ok(Items::from_vec(text))
}
