use crate::{Attributes, Block, Declaration, Expr, Exprs, Fields, Placed, Shape, TypeExpr};
use spl_value::{Items, Name};

/// A program as it is written: what it declares, in the order of the text. A `namespace` line in
/// front is ignored.
pub type Unit = Items<Definition>;

pub enum Definition {
    Type(TypeDefinition),
    Function(FunctionDefinition),
    Composite(Composite),
}

impl Drop for Definition {
    fn drop(self) {
        match self {
            Definition::Type(_) => {}
            Definition::Function(_) => {}
            Definition::Composite(_) => {}
        }
    }
}

/// `type name = shape;`, or without `type` among the types of a composite.
pub struct TypeDefinition {
    pub name: Placed<Name>,
    pub shape: Shape,
}

impl Drop for TypeDefinition {
    fn drop(self) {
        let TypeDefinition { name: _, shape: _ } = self;
    }
}

pub struct FunctionDefinition {
    /// The type of its result; none for `void`.
    pub result: Option<TypeExpr>,
    pub name: Placed<Name>,
    pub parameters: Attributes,
    pub body: Block,
}

impl Drop for FunctionDefinition {
    fn drop(self) {
        let FunctionDefinition {
            result: _,
            name: _,
            parameters: _,
            body: _,
        } = self;
    }
}

/// A composite. `public` in front is ignored. In the text the inputs of the head may come before the
/// outputs. A clause with nothing after its word is as one that isn't there.
pub struct Composite {
    pub name: Placed<Name>,
    pub outputs: Items<HeadPort>,
    pub inputs: Items<HeadPort>,
    pub parameters: Items<CompositeParameter>,
    pub types: Items<TypeDefinition>,
    pub graph: Items<Invocation>,
    pub config: Items<Parameter>,
}

impl Drop for Composite {
    fn drop(self) {
        let Composite {
            name: _,
            outputs: _,
            inputs: _,
            parameters: _,
            types: _,
            graph: _,
            config: _,
        } = self;
    }
}

/// A port in the head of a composite.
pub struct HeadPort {
    pub shape: Option<Shape>,
    pub name: Placed<Name>,
}

impl Drop for HeadPort {
    fn drop(self) {
        let HeadPort { shape: _, name: _ } = self;
    }
}

/// `expression<type> $name : default;`, where the default may be absent. The name is without the `$`,
/// at which its place is.
pub struct CompositeParameter {
    pub kind: TypeExpr,
    pub name: Placed<Name>,
    pub default: Option<Expr>,
}

impl Drop for CompositeParameter {
    fn drop(self) {
        let CompositeParameter {
            kind: _,
            name: _,
            default: _,
        } = self;
    }
}

/// An invocation of an operator or of a composite.
pub struct Invocation {
    /// The place of its first token.
    pub at: u32,
    pub outputs: Items<OutputStream>,
    pub alias: Option<Placed<Name>>,
    /// What is invoked.
    pub operator: Placed<Name>,
    pub inputs: Items<InputPort>,
    pub clauses: Clauses,
}

impl Drop for Invocation {
    fn drop(self) {
        let Invocation {
            at: _,
            outputs: _,
            alias: _,
            operator: _,
            inputs: _,
            clauses: _,
        } = self;
    }
}

/// A stream that an invocation makes.
#[derive(Drop)]
pub struct OutputStream {
    pub shape: Shape,
    pub name: Placed<Name>,
}

/// An input port of an invocation: the streams that it takes, one or more.
pub struct InputPort {
    pub streams: Items<Placed<Name>>,
    pub alias: Option<Placed<Name>>,
}

impl Drop for InputPort {
    fn drop(self) {
        let InputPort {
            streams: _,
            alias: _,
        } = self;
    }
}

/// The clauses of an invocation. `logic`, `window` and `output` are at these words. A `param` or
/// `config` with nothing after it is as one that isn't there.
pub struct Clauses {
    pub logic: Option<Placed<Logic>>,
    pub window: Option<Placed<Items<PortWindow>>>,
    pub parameters: Items<Parameter>,
    pub output: Option<Placed<Items<OutputAssignments>>>,
    pub config: Items<Parameter>,
}

impl Drop for Clauses {
    fn drop(self) {
        let Clauses {
            logic: _,
            window: _,
            parameters: _,
            output: _,
            config: _,
        } = self;
    }
}

/// The variables of a state, and the handlers of events.
pub struct Logic {
    pub state: Items<Declaration>,
    pub handlers: Items<Placed<Handler>>,
}

impl Drop for Logic {
    fn drop(self) {
        let Logic {
            state: _,
            handlers: _,
        } = self;
    }
}

/// `onTuple port: block` or `onPunct port: block`, at its first word.
pub struct Handler {
    pub event: HandledEvent,
    pub port: Placed<Name>,
    pub body: Block,
}

impl Drop for Handler {
    fn drop(self) {
        let Handler {
            event: _,
            port: _,
            body: _,
        } = self;
    }
}

#[derive(Clone, Copy)]
pub enum HandledEvent {
    /// `onTuple`
    Tuple,
    /// `onPunct`
    Punctuation,
}

/// `port: part, ..;`
pub struct PortWindow {
    pub port: Placed<Name>,
    pub parts: Items<WindowPart>,
}

impl Drop for PortWindow {
    fn drop(self) {
        let PortWindow { port: _, parts: _ } = self;
    }
}

/// A word of a window, with its arguments where it has parentheses.
pub struct WindowPart {
    pub name: Placed<Name>,
    pub arguments: Option<Exprs>,
}

impl Drop for WindowPart {
    fn drop(self) {
        let WindowPart {
            name: _,
            arguments: _,
        } = self;
    }
}

/// `name: value, ..;` of `param` or `config`, with one value or more.
pub struct Parameter {
    pub name: Placed<Name>,
    pub values: Exprs,
}

impl Drop for Parameter {
    fn drop(self) {
        let Parameter { name: _, values: _ } = self;
    }
}

/// `stream: attribute = value, ..;` of `output`
pub struct OutputAssignments {
    pub stream: Placed<Name>,
    pub assignments: Fields,
}

impl Drop for OutputAssignments {
    fn drop(self) {
        let OutputAssignments {
            stream: _,
            assignments: _,
        } = self;
    }
}
