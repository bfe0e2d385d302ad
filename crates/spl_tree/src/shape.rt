use crate::{LeftOut, Placed};
use spl_value::{Boxed, IntKind, Items, Name};

/// A type as it is written, at its first token. What it is stands in a box, as with `Expr`.
pub type TypeExpr = Placed<Boxed<TypeKind>>;

/// What a written type is.
pub enum TypeKind {
    Boolean,
    Rstring,
    /// `int8` to `uint64`
    Int(IntKind),
    /// The word of a type that this profile leaves out.
    LeftOut(LeftOut),
    /// A name that stands for a type.
    Name(Name),
    /// `list<element>`
    List(TypeExpr),
    /// `map<key, value>`
    Map(TypeExpr, TypeExpr),
    /// `tuple<type name, ..>`, with one attribute or more
    Tuple(Items<Attribute<TypeExpr>>),
}

impl Drop for TypeKind {
    fn drop(self) {
        match self {
            TypeKind::Boolean => {}
            TypeKind::Rstring => {}
            TypeKind::Int(_) => {}
            TypeKind::LeftOut(_) => {}
            TypeKind::Name(_) => {}
            TypeKind::List(_) => {}
            TypeKind::Map(_, _) => {}
            TypeKind::Tuple(_) => {}
        }
    }
}

/// A type, and the name of what is of it: an attribute, a parameter of a function, or the variable of
/// a `for`.
pub struct Attribute<T> {
    pub kind: T,
    pub name: Placed<Name>,
}

impl<T: Drop> Drop for Attribute<T> {
    fn drop(self) {
        let Attribute { kind: _, name: _ } = self;
    }
}

pub type Attributes = Items<Attribute<TypeExpr>>;

/// What stands between `stream<` and `>`, or after the name of a new type; at its first token.
pub type Shape = Placed<ShapeKind>;

pub enum ShapeKind {
    Type(TypeExpr),
    /// `type name, ..`: one attribute or more, as within `tuple<` and `>`.
    Attributes(Attributes),
}

impl Drop for ShapeKind {
    fn drop(self) {
        match self {
            ShapeKind::Type(_) => {}
            ShapeKind::Attributes(_) => {}
        }
    }
}
