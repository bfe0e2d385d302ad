//! Words of rows, and their values.
ghost use Rattle.std.specs.Prelude.{IsTrue};
ghost use Rattle.spl_value.specs.Key.{is_key_value};

use crate::pairs::pairs_of;
use spl_value::{Items, NoMemory, Value, Values};
use std::alloc::{AllocError, Global};
use test_texts::words::cut;

/// The number that a word spells; what spells none is 0.
pub(crate) fn number(word: &str) -> i128 {
    word.parse::<i128>().unwrap_or(0)
}

/// The boolean or the integer that a word spells.
pub(crate) fn key(word: &str) -> Value
    ensures { IsTrue (is_key_value result) }
{
    match word {
        "false" => Value::Bool(false),
        "true" => Value::Bool(true),
        _ => Value::Int(number(word)),
    }
}

/// The bytes whose numbers these words are.
pub(crate) fn bytes_of(alloc: Global, words: &str) -> Result<Vec<u8>, AllocError> {
    let mut bytes = Vec::new(alloc);
    for word in words.split_whitespace() {
        bytes.push(word.parse::<u8>().unwrap_or(0))?;
    }
    Ok(bytes)
}

fn integers(alloc: Global, words: &str) -> Result<Values, AllocError> {
    let mut values = Items::new(alloc);
    for word in words.split_whitespace() {
        values.push(Value::Int(number(word)))?;
    }
    Ok(values)
}

fn map(alloc: Global, words: &str) -> Result<Value, AllocError> {
    match pairs_of(alloc, words) {
        Ok(pairs) => Ok(Value::Map(pairs)),
        Err(NoMemory) => Err(AllocError),
    }
}

// A text with the bytes whose numbers these words are.
fn text(alloc: Global, words: &str) -> Result<Value, AllocError> {
    Ok(Value::Text(Items::from_vec(bytes_of(alloc, words)?)))
}

// A tuple or a list of the numbers of these words.
fn sequence(alloc: Global, words: &str, is_tuple: bool) -> Result<Value, AllocError> {
    let values = integers(alloc, words)?;
    Ok(if is_tuple {
        Value::Tuple(values)
    } else {
        Value::List(values)
    })
}

// A list of one list of one list .., with the number in the innermost.
fn nested(alloc: Global, n: i128) -> Result<Value, AllocError> {
    let mut value = Value::Int(n);
    for _ in 0..150u32 {
        value = Value::List(Items::from_vec(vec![in alloc; value]?));
    }
    Ok(value)
}

// The value of words: `5` or `true`, `text 97 0` by the numbers of its bytes, `list 1 2`, `map 1:5 2:0`,
// `tuple 1 2`, or `nested 7` in 150 lists.
fn value_of(alloc: Global, words: &str) -> Result<Value, AllocError> {
    let (kind, words) = cut(words);
    match kind {
        "text" => text(alloc, words),
        "list" => sequence(alloc, words, false),
        "tuple" => sequence(alloc, words, true),
        "map" => map(alloc, words),
        "nested" => nested(alloc, number(words)),
        word => Ok(key(word)),
    }
}

fn add_value(values: &mut Values, value: Result<Value, AllocError>) -> Result<(), AllocError> {
    values.push(value?)
}

/// The values of lines, without the empty ones.
pub(crate) fn values_of(alloc: Global, lines: &str) -> Result<Values, AllocError> {
    let mut values = Items::new(alloc);
    for line in lines.lines() {
        if !line.is_empty() {
            add_value(&mut values, value_of(alloc, line))?;
        }
    }
    Ok(values)
}
