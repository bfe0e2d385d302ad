//! What the text of a program is: its tokens, and the trees that they spell.
#![tactic(auto)]

mod body;
mod code;
mod depth;
mod expression;
mod graph;
mod keyword;
mod laws;
mod shape;
mod statement;
mod symbol;
mod token;
mod unit;

pub use body::{Body, Change, Function, Functions, Place, Statement};
pub use code::{
    BinaryCode, BuiltIn, CallName, Code, IntegerOperator, Marker, OrderOperator, Selector, Slot,
    UnaryCode,
};
pub use depth::{MOST_EVALUATED, MOST_HEIGHT, MOST_NESTED};
pub use expression::{
    BinaryOperator, CastTarget, Entries, Expr, ExprKind, Exprs, Field, Fields, Placed, Prefix,
    PrefixOperator, Prefixes, Step, Steps,
};
pub use graph::{Expansion, Graph, InputStreams, Op, OpKind, Site, Stream};
pub use keyword::{KEYWORDS, Keyword, LeftOut};
pub use laws::{texts_law, tokens_law, tokens_on_literals, weights_law, weights_on_literals};
pub use shape::{Attribute, Attributes, Shape, ShapeKind, TypeExpr, TypeKind};
pub use statement::{Block, Declaration, Stmt, StmtKind};
pub use symbol::Symbol;
pub use token::{LexicalError, MOST_BYTES, Number, Token, TokenKind, TokenList, Tokens};
pub use unit::{
    Clauses, Composite, CompositeParameter, Definition, FunctionDefinition, HandledEvent, Handler,
    HeadPort, InputPort, Invocation, Logic, OutputAssignments, OutputStream, Parameter, PortWindow,
    TypeDefinition, Unit, WindowPart,
};
