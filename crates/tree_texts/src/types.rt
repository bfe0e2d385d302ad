//! Types and shapes as texts.
use crate::{ROOM, add_name};
use spl_tree::{Attribute, Shape, ShapeKind, TypeExpr, TypeKind};
use test_texts::text::Text;
use test_texts::types::integer_word;

/// Adds a type.
pub fn add_type(text: &mut Text, kind: &TypeExpr) {
    type_within(text, ROOM, kind);
}

/// Adds types with names, with commas between them.
pub fn add_attributes(text: &mut Text, attributes: &[Attribute<TypeExpr>]) {
    attributes_within(text, ROOM, attributes);
}

// Adds a type that nests at most `room` deep.
#[cycle(types)]
fn type_within(text: &mut Text, room: u32, kind: &TypeExpr) {
    let Some(room) = room.checked_sub(1) else {
        return text.add("..");
    };
    text.add_at(kind.at);
    match kind.what.get() {
        TypeKind::Boolean => text.add("boolean"),
        TypeKind::Rstring => text.add("rstring"),
        TypeKind::Int(kind) => text.add(integer_word(*kind)),
        TypeKind::LeftOut(word) => {
            text.add("left out ");
            text.add_bytes(word.word());
        }
        TypeKind::Name(name) => text.add_bytes(name.as_slice()),
        TypeKind::List(element) => {
            text.add("list<");
            type_within(text, room, element);
            text.add(">");
        }
        TypeKind::Map(key, value) => {
            text.add("map<");
            type_within(text, room, key);
            text.add(", ");
            type_within(text, room, value);
            text.add(">");
        }
        TypeKind::Tuple(attributes) => {
            text.add("tuple<");
            attributes_within(text, room, attributes.as_slice());
            text.add(">");
        }
    }
}

#[cycle(types)]
fn attributes_within(text: &mut Text, room: u32, attributes: &[Attribute<TypeExpr>]) {
    for (at, attribute) in attributes.iter().enumerate() {
        text.add_between(at, ", ");
        type_within(text, room, &attribute.kind);
        text.add(" ");
        add_name(text, &attribute.name);
    }
}

/// Adds a shape: attributes in parentheses.
pub fn add_shape(text: &mut Text, shape: &Shape) {
    text.add_at(shape.at);
    match &shape.what {
        ShapeKind::Type(kind) => add_type(text, kind),
        ShapeKind::Attributes(attributes) => {
            text.add("(");
            add_attributes(text, attributes.as_slice());
            text.add(")");
        }
    }
}
