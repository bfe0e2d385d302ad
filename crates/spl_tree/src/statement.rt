use crate::{Attribute, BinaryOperator, Expr, Placed, TypeExpr};
use spl_value::{Boxed, Items, Name};

/// A statement as it is written, at its first token. What it is stands in a box, as with `Expr`.
pub type Stmt = Placed<Boxed<StmtKind>>;

/// Statements between braces.
pub type Block = Items<Stmt>;

/// What a written statement is.
pub enum StmtKind {
    Block(Items<Stmt>),
    Declare(Declaration),
    /// `place = value;`, or `place op= value;` with that operator. A place is a name, and the members
    /// and elements that are taken of it.
    Assign(Expr, Option<BinaryOperator>, Expr),
    /// A call, whose value isn't used.
    Call(Expr),
    /// The condition and the statement of `if` and of each `else if` after it, one or more; and the
    /// statement after an `else` without `if`, where there is one.
    If(Items<(Expr, Stmt)>, Option<Stmt>),
    While(Expr, Stmt),
    /// `for (type name in value) statement`
    For(Attribute<TypeExpr>, Expr, Stmt),
    Break,
    Continue,
    Return(Option<Expr>),
    /// `submit(value, stream);`
    Submit(Expr, Placed<Name>),
}

impl Drop for StmtKind {
    fn drop(self) {
        match self {
            StmtKind::Block(_) => {}
            StmtKind::Declare(_) => {}
            StmtKind::Assign(_, _, _) => {}
            StmtKind::Call(_) => {}
            StmtKind::If(_, _) => {}
            StmtKind::While(_, _) => {}
            StmtKind::For(_, _, _) => {}
            StmtKind::Break => {}
            StmtKind::Continue => {}
            StmtKind::Return(_) => {}
            StmtKind::Submit(_, _) => {}
        }
    }
}

/// `mutable type name = value;`, where `mutable` and the value may be absent.
pub struct Declaration {
    pub mutable: bool,
    pub kind: TypeExpr,
    pub name: Placed<Name>,
    pub value: Option<Expr>,
}

impl Drop for Declaration {
    fn drop(self) {
        let Declaration {
            mutable: _,
            kind: _,
            name: _,
            value: _,
        } = self;
    }
}
