//! The text of a row.
ghost use Rattle.std.specs.Prelude.{◌≡◌, ◌++◌, ◌∷◌, [], map, true, false, cond, codes, OnOk};
ghost use Rattle.std.specs.Fmt.{signed_decimal};
ghost use Rattle.csv.specs.Writing.{default_writer, needs_quotes, quoted, field_text, row_text};
ghost use Rattle.stream_model.specs.parts.Fields.{field_of};

use itoa::Buffer;
use spl_value::{NoMemory, Value};

// Whether a field is written in quotes.
fn in_quotes(field: &[u8]) -> bool
    ensures { result ≡ needs_quotes default_writer field.now }
{
    field.iter().any(|b| *b == b',' || *b == b'"' || (*b == b'\r' || *b == b'\n'))
}

fn add_byte(row: &mut Vec<u8>, b: u8) -> Result<(), NoMemory>
    ensures { OnOk result (row.new.items ≡ row.old.items ++ b ∷ []) }
{
    row.push(b)?;
    Ok(())
}

// Adds a field between quotes.
#[inline(never)]
fn add_quoted(row: &mut Vec<u8>, field: &[u8]) -> Result<(), NoMemory>
    ensures { OnOk result (row.new.items ≡ row.old.items ++ quoted default_writer field.now) }
{
    add_byte(row, b'"')?;
    for b in field {
        if *b == b'"' {
            add_byte(row, b'"')?;
        }
        add_byte(row, *b)?;
    }
    add_byte(row, b'"')?;
    Ok(())
}

// Adds a field, quoted where it needs it.
fn add_field(row: &mut Vec<u8>, field: &[u8]) -> Result<(), NoMemory>
    ensures { OnOk result (row.new.items ≡ row.old.items ++ field_text default_writer field.now) }
{
    if in_quotes(field) {
        add_quoted(row, field)
    } else {
        row.extend_from_slice(field)?;
        Ok(())
    }
}

// Adds the digits of a number of 64 bits, which need no quotes.
fn add_short_number(row: &mut Vec<u8>, n: i64) -> Result<(), NoMemory>
    ensures { OnOk result
        (row.new.items ≡ row.old.items ++ field_text default_writer (signed_decimal n)) }
{
    let mut digits = Buffer::new();
    row.extend_from_slice(digits.format(n).as_bytes())?;
    Ok(())
}

#[cold]
#[inline(never)]
fn add_long_number(row: &mut Vec<u8>, n: i128) -> Result<(), NoMemory>
    ensures { OnOk result
        (row.new.items ≡ row.old.items ++ field_text default_writer (signed_decimal n)) }
{
    let mut digits = Buffer::new();
    add_field(row, digits.format(n).as_bytes())
}

// Adds a number.
fn add_number(row: &mut Vec<u8>, n: i128) -> Result<(), NoMemory>
    ensures { OnOk result
        (row.new.items ≡ row.old.items ++ field_text default_writer (signed_decimal n)) }
{
    if -0x8000_0000_0000_0000 <= n && n < 0x8000_0000_0000_0000 {
        add_short_number(row, n as i64)
    } else {
        add_long_number(row, n)
    }
}

// Adds `true` or `false`, which need no quotes.
fn add_truth(row: &mut Vec<u8>, b: bool) -> Result<(), NoMemory>
    ensures { OnOk result (row.new.items ≡ row.old.items
        ++ field_text default_writer (cond b (codes "true") (codes "false"))) }
{
    if b {
        row.extend_from_slice(b"true")?;
    } else {
        row.extend_from_slice(b"false")?;
    }
    Ok(())
}

// Adds a value's field.
fn add_value(row: &mut Vec<u8>, value: &Value) -> Result<(), NoMemory>
    ensures { OnOk result (row.new.items ≡ row.old.items
        ++ field_text default_writer (field_of value.now)) }
{
    match value {
        Value::Int(n) => add_number(row, *n),
        Value::Bool(b) => add_truth(row, *b),
        Value::Text(bytes) => add_field(row, bytes.as_slice()),
        Value::List(_) | Value::Map(_) | Value::Tuple(_) => Ok(()),
    }
}

/// Adds the text of a tuple's row to an empty buffer: numbers as decimals, `true` or `false`, and
/// texts, quoted where `csv` needs it, ended by a line feed. A list, a map or a tuple is an empty
/// field.
pub fn add_row(row: &mut Vec<u8>, tuple: &[Value]) -> Result<(), NoMemory>
    requires { row.old.items ≡ [] }
    ensures { OnOk result (row.new.items ≡ row_text default_writer (map field_of tuple.now)) }
{
    let mut later = false;
    for value in tuple {
        if later {
            add_byte(row, b',')?;
        }
        add_value(row, value)?;
        later = true;
    }
    if row.as_slice().is_empty() {
        row.extend_from_slice(b"\"\"")?;
    }
    add_byte(row, b'\n')?;
    Ok(())
}
