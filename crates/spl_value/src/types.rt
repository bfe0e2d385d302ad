ghost use Rattle.std.specs.Prelude.{◌≡◌, ◌≢◌, ◌↔◌, IsTrue, IfOk, List, MatchOption, Ok};

use crate::{Boxed, Items, NoMemory};
use std::alloc::Global;

/// The integer types of the language: signed or unsigned, of 8 to 64 bits.
#[derive(Clone, Copy, Debug, PartialEq, Eq)]
pub enum IntKind {
    I8,
    I16,
    I32,
    I64,
    U8,
    U16,
    U32,
    U64,
}

/// A type of the language. `Text` is `rstring`.
#[derive(PartialEq, Eq)]
pub enum SplType {
    Int(IntKind),
    Bool,
    Text,
    List(Boxed<SplType>),
    Map(Boxed<SplType>, Boxed<SplType>),
    Tuple(Schema),
}

impl Drop for SplType {
    fn drop(self) {
        match self {
            SplType::Int(_) => {}
            SplType::Bool => {}
            SplType::Text => {}
            SplType::List(_) => {}
            SplType::Map(_, _) => {}
            SplType::Tuple(_) => {}
        }
    }
}

impl SplType {
    ghost use Rattle.spl_value.specs.declared.types.Named.{Named};
    ghost use Rattle.spl_value.specs.declared.types.SplType.{SplType};
    ghost use Rattle.spl_value.specs.declared.types.SplType.TheVariants as S;

    /// The attributes of a tuple type; no other type has any.
    pub fn into_schema(self) -> Option<Schema>
        ensures { MatchOption result ((schema : List (Named SplType)) → self ≢ S.Tuple schema) (λ schema. self ≡ S.Tuple schema) }
    {
        match self {
            SplType::Tuple(schema) => Some(schema),
            _ => None,
        }
    }
}

/// A name, and what it is given.
#[derive(PartialEq, Eq, Drop)]
pub struct Named<K> {
    pub name: Name,
    pub kind: K,
}

/// An attribute of a tuple type: its name and its type.
pub type Attribute = Named<SplType>;

/// The attributes of a tuple type, in their order.
pub type Schema = Items<Attribute>;

/// The bytes of a text or a file.
pub type Bytes = Items<u8>;

/// The bytes of a name.
pub type Name = Items<u8>;

/// Places of attributes in a tuple, from 0.
pub type Places = Items<u32>;

/// Numbers of an operator's inputs, from 0.
pub type Inputs = Items<u32>;

/// Numbers of operators, streams or elements, from 0.
pub type Ids = Items<u32>;

/// Whether two types are the same.
pub fn same_type(a: &SplType, b: &SplType) -> bool
    ensures { IsTrue result ↔ (a.now ≡ b.now) }
{
    a == b
}

// The box of a type, where the type is there and memory for the box.
fn boxed(alloc: Global, kind: Result<SplType, NoMemory>) -> Result<Boxed<SplType>, NoMemory>
    ensures { IfOk result (λ b. kind ≡ Ok b) }
{
    Ok(Boxed::new(alloc, kind?)?)
}

/// A copy of a type.
#[cycle(copy)]
pub fn copy_type(alloc: Global, t: &SplType) -> Result<SplType, NoMemory>
    ensures { IfOk result (λ u. u ≡ t.now) }
{
    match t {
        SplType::Int(kind) => Ok(SplType::Int(*kind)),
        SplType::Bool => Ok(SplType::Bool),
        SplType::Text => Ok(SplType::Text),
        SplType::List(element) => {
            Ok(SplType::List(boxed(alloc, copy_type(alloc, element.get()))?))
        }
        SplType::Map(key, value) => {
            let key = boxed(alloc, copy_type(alloc, key.get()))?;
            let value = boxed(alloc, copy_type(alloc, value.get()))?;
            Ok(SplType::Map(key, value))
        }
        SplType::Tuple(schema) => Ok(SplType::Tuple(copy_schema(alloc, schema.as_slice())?)),
    }
}

/// Copies of attributes, in their order.
#[cycle(copy)]
pub fn copy_schema(alloc: Global, schema: &[Attribute]) -> Result<Schema, NoMemory>
    ensures { IfOk result (λ it. it ≡ schema.now) }
{
    let mut copied = Items::new(alloc);
    for attribute in schema {
        let name = Items::from_slice(alloc, attribute.name.as_slice())?;
        let kind = copy_type(alloc, &attribute.kind)?;
        copied.push(Named { name, kind })?;
    }
    Ok(copied)
}
