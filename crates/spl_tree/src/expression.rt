use crate::Number;
use spl_value::{Boxed, Bytes, IntKind, Items, Name};
use std::alloc::{AllocError, Global};

/// Something, with the place of its first byte in the program.
pub struct Placed<T> {
    pub at: u32,
    pub what: T,
}

impl<T: Drop> Drop for Placed<T> {
    fn drop(self) {
        let Placed { at: _, what: _ } = self;
    }
}

impl<T> Placed<T> {
    ghost use Rattle.std.specs.Prelude.{◌≡◌};

    /// The place, and what stands there.
    pub fn into_parts(self) -> (u32, T)
        ensures at { result.0 ≡ self.at }
        ensures what { result.1 ≡ self.what }
    {
        let Placed { at, what } = self;
        (at, what)
    }
}

impl<T: Drop> Placed<Boxed<T>> {
    ghost use Rattle.std.specs.Prelude.{◌≡◌, IfOk};
    ghost use Rattle.spl_tree.specs.Trees.{placed};

    /// Something in a box, at that place.
    pub fn boxed(alloc: Global, at: u32, what: T) -> Result<Placed<Boxed<T>>, AllocError>
        ensures { IfOk result (λ it. it ≡ placed at what) }
    {
        let what = Boxed::new(alloc, what)?;
        Ok(Placed { at, what })
    }
}

/// An expression, at its first token. What it is stands in a box, so that a function that holds an
/// expression drops it in one step.
pub type Expr = Placed<Boxed<ExprKind>>;

pub type Exprs = Items<Expr>;

/// The entries of a map literal: key and value.
pub type Entries = Items<(Expr, Expr)>;

pub type Fields = Items<Field<Expr>>;

pub type Prefixes = Items<Prefix>;

pub type Steps = Items<Step<Expr>>;

/// What an expression is.
pub enum ExprKind {
    Name(Name),
    /// A `$` parameter of a composite. The name is without the `$`.
    Dollar(Name),
    Number(Number),
    Text(Bytes),
    Bool(bool),
    /// An expression in parentheses.
    Group(Expr),
    List(Exprs),
    Map(Entries),
    Tuple(Fields),
    /// A call of the function of that name, with its arguments.
    Call(Name, Exprs),
    /// A primary expression, and the members and elements that are taken of it in turn.
    Select(Expr, Steps),
    /// Prefix operators and casts, the outermost first, and their operand.
    Unary(Prefixes, Expr),
    Binary(BinaryOperator, Expr, Expr),
    /// `condition ? first : second`.
    Conditional(Expr, Expr, Expr),
}

impl Drop for ExprKind {
    fn drop(self) {
        match self {
            ExprKind::Name(_) => {}
            ExprKind::Dollar(_) => {}
            ExprKind::Number(_) => {}
            ExprKind::Text(_) => {}
            ExprKind::Bool(_) => {}
            ExprKind::Group(_) => {}
            ExprKind::List(_) => {}
            ExprKind::Map(_) => {}
            ExprKind::Tuple(_) => {}
            ExprKind::Call(_, _) => {}
            ExprKind::Select(_, _) => {}
            ExprKind::Unary(_, _) => {}
            ExprKind::Binary(_, _, _) => {}
            ExprKind::Conditional(_, _, _) => {}
        }
    }
}

impl ExprKind {
    ghost use Rattle.std.specs.Prelude.{◌≡◌, ◌≢◌, ℕ, List, MatchOption};
    ghost use Rattle.spl_tree.specs.declared.expression.ExprKind.TheVariants as X;

    /// The name that this is, where it is one.
    pub fn into_name(self) -> Option<Name>
        ensures { MatchOption result ((name : List ℕ) → self ≢ X.Name name) (λ name. self ≡ X.Name name) }
    {
        match self {
            ExprKind::Name(name) => Some(name),
            _ => None,
        }
    }
}

/// A field of a tuple literal: its name, and the expression of its value.
pub struct Field<E> {
    pub name: Placed<Name>,
    pub value: E,
}

impl<E: Drop> Drop for Field<E> {
    fn drop(self) {
        let Field { name: _, value: _ } = self;
    }
}

/// A step after a primary expression.
pub enum Step<E> {
    /// `.name`: the place is that of the name.
    Member(Placed<Name>),
    /// `[index]`
    Index(E),
}

impl<E: Drop> Drop for Step<E> {
    fn drop(self) {
        match self {
            Step::Member(_) => {}
            Step::Index(_) => {}
        }
    }
}

/// A prefix operator or a cast, at its first token.
pub type Prefix = Placed<PrefixOperator>;

#[derive(Clone, Copy)]
pub enum PrefixOperator {
    /// `!`
    Not,
    /// `-`
    Negate,
    /// `~`
    Complement,
    /// `(T)`
    Cast(CastTarget),
}

/// A type that an expression can be cast to.
#[derive(Clone, Copy)]
pub enum CastTarget {
    Int(IntKind),
    /// `rstring`
    Text,
}

/// An operator between two operands. Those that bind tighter come first.
#[derive(Clone, Copy)]
pub enum BinaryOperator {
    /// `*`
    Multiply,
    /// `/`
    Divide,
    /// `%`
    Remainder,
    /// `+`
    Add,
    /// `-`
    Subtract,
    /// `<`
    Less,
    /// `<=`
    LessOrEqual,
    /// `>`
    Greater,
    /// `>=`
    GreaterOrEqual,
    /// `in`
    In,
    /// `==`
    Equal,
    /// `!=`
    NotEqual,
    /// `&`
    BitAnd,
    /// `^`
    BitXor,
    /// `|`
    BitOr,
    /// `&&`
    And,
    /// `||`
    Or,
}
