//! What the language says of a kind of operator; the table has a row a kind.

use spl_tree::OpKind;

/// How many ports an operator may have on one side.
#[derive(Clone, Copy)]
pub struct PortBounds {
    pub least: usize,
    pub most: usize,
}

/// What the values of a parameter are.
#[derive(Clone, Copy)]
pub enum Role {
    File,
    Format,
    /// Whether a row that doesn't fit is a fault.
    Parsing,
    Condition,
    /// Whether a marker comes before or after a tuple.
    Position,
    Index,
    /// Attributes of the first port.
    Attributes,
}

/// When an operator has a parameter.
#[derive(Clone, Copy)]
pub enum Presence {
    Optional,
    Required,
    /// Required where the window is partitioned, and refused where it isn't.
    WithPartitions,
}

/// A parameter of operators.
#[derive(Clone, Copy)]
pub struct ParameterRule {
    pub name: &'static [u8],
    pub role: Role,
    pub presence: Presence,
}

/// Which windows the input ports of an operator have.
#[derive(Clone, Copy)]
pub enum WindowForm {
    /// Tumbling ones, or sliding ones with a trigger. They may be partitioned.
    Aggregate,
    /// Sliding ones without a trigger.
    Join,
}

/// What output attributes are assigned.
#[derive(Clone, Copy)]
pub enum OutputForm {
    /// An expression each.
    Tuple,
    /// A call of an output function each, which gathers the values of a group.
    Groups,
}

/// What the language says of the operators of a kind.
#[derive(Clone, Copy)]
pub struct KindRules {
    pub name: &'static [u8],
    pub inputs: PortBounds,
    pub outputs: PortBounds,
    /// Whether tuples are passed on as they come, so that the outputs have the attributes of the input.
    pub passes_on: bool,
    /// Those that are required stand in the order in which a missing one is reported.
    pub parameters: &'static [ParameterRule],
    /// None where the ports have no windows.
    pub window: Option<WindowForm>,
    /// None where the operator has no output clause.
    pub output: Option<OutputForm>,
    /// Whether the operator may have a logic clause.
    pub logic: bool,
}

/// All kinds of operator, each once.
pub const KINDS: [OpKind; 10] = [
    OpKind::FileSource,
    OpKind::FileSink,
    OpKind::Filter,
    OpKind::Functor,
    OpKind::Punctor,
    OpKind::Split,
    OpKind::Union,
    OpKind::Custom,
    OpKind::Aggregate,
    OpKind::Join,
];
