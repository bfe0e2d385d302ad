//! Types, as the language writes them: `map<rstring, list<int64>>`, `tuple<int64 a, rstring b>`.
use crate::text::Text;
use spl_value::{Attribute, IntKind, SplType};

/// The word of an integer type.
pub fn integer_word(kind: IntKind) -> &'static str {
    match kind {
        IntKind::I8 => "int8",
        IntKind::I16 => "int16",
        IntKind::I32 => "int32",
        IntKind::I64 => "int64",
        IntKind::U8 => "uint8",
        IntKind::U16 => "uint16",
        IntKind::U32 => "uint32",
        IntKind::U64 => "uint64",
    }
}

const KINDS: [IntKind; 8] = [
    IntKind::I8,
    IntKind::I16,
    IntKind::I32,
    IntKind::I64,
    IntKind::U8,
    IntKind::U16,
    IntKind::U32,
    IntKind::U64,
];

/// The integer type that has this word.
pub fn integer_kind(word: &str) -> Option<IntKind> {
    for kind in &KINDS {
        if integer_word(*kind) == word {
            return Some(*kind);
        }
    }
    None
}

/// Adds a type.
#[cycle(types)]
pub fn add_type(text: &mut Text, kind: &SplType) {
    match kind {
        SplType::Int(kind) => text.add(integer_word(*kind)),
        SplType::Bool => text.add("boolean"),
        SplType::Text => text.add("rstring"),
        SplType::List(element) => {
            text.add("list<");
            add_type(text, element.get());
            text.add(">");
        }
        SplType::Map(key, value) => {
            text.add("map<");
            add_type(text, key.get());
            text.add(", ");
            add_type(text, value.get());
            text.add(">");
        }
        SplType::Tuple(attributes) => {
            text.add("tuple<");
            add_attributes(text, attributes.as_slice());
            text.add(">");
        }
    }
}

/// Adds attributes, each a type and a name, with `, ` between them.
#[cycle(types)]
pub fn add_attributes(text: &mut Text, attributes: &[Attribute]) {
    for (at, attribute) in attributes.iter().enumerate() {
        text.add_between(at, ", ");
        add_type(text, &attribute.kind);
        text.add(" ");
        text.add_bytes(attribute.name.as_slice());
    }
}
