//! Schemas of rows, with a blank between attributes.
//!
//! An attribute is a name and its type, as in `n:int64`. The parts of a type stand behind what they are made of:
//! `rstring,list` is a list of texts, `rstring,int32,map` a map, and `int64,rstring,a+b` a tuple of attributes `a`
//! and `b`.
use spl_value::{Attribute, Boxed, Items, Schema, SplType};
use std::alloc::{AllocError, Global};
use test_texts::types::integer_kind;

fn popped(kinds: &mut Items<SplType>) -> SplType {
    kinds.pop().unwrap_or(SplType::Bool)
}

fn attribute(alloc: Global, name: &str, kind: SplType) -> Result<Attribute, AllocError> {
    let name = Items::from_slice(alloc, name.as_bytes())?;
    Ok(Attribute { name, kind })
}

// The tuple type of the last kinds, one for each name.
fn tuple_of(alloc: Global, names: &str, kinds: &mut Items<SplType>) -> Result<SplType, AllocError> {
    let mut schema = Items::new(alloc);
    for name in names.split('+').rev() {
        schema.insert(0, attribute(alloc, name, popped(kinds))?)?;
    }
    Ok(SplType::Tuple(schema))
}

fn basic(word: &str) -> SplType {
    if word == "rstring" {
        return SplType::Text;
    }
    match integer_kind(word) {
        Some(kind) => SplType::Int(kind),
        None => SplType::Bool,
    }
}

// The type that a part makes of the kinds before it.
fn made(alloc: Global, part: &str, kinds: &mut Items<SplType>) -> Result<SplType, AllocError> {
    if part == "list" {
        return Ok(SplType::List(Boxed::new(alloc, popped(kinds))?));
    }
    if part == "map" {
        let value = Boxed::new(alloc, popped(kinds))?;
        let key = Boxed::new(alloc, popped(kinds))?;
        return Ok(SplType::Map(key, value));
    }
    if part.contains('+') {
        return tuple_of(alloc, part, kinds);
    }
    Ok(basic(part))
}

fn kind_of(alloc: Global, parts: &str) -> Result<SplType, AllocError> {
    let mut kinds = Items::new(alloc);
    for part in parts.split(',') {
        let kind = made(alloc, part, &mut kinds)?;
        kinds.push(kind)?;
    }
    Ok(popped(&mut kinds))
}

/// The schema of a row.
pub fn schema_of(alloc: Global, text: &str) -> Result<Schema, AllocError> {
    let mut schema = Items::new(alloc);
    for word in text.split(' ') {
        if let Some((name, parts)) = word.split_once(':') {
            schema.push(attribute(alloc, name, kind_of(alloc, parts)?)?)?;
        }
    }
    Ok(schema)
}
