use crate::Variable;
use spl_tree::{Body, Code, HandledEvent, Slot};
use spl_value::{Bytes, IntKind, Items, Name, Places, Schema, SplType};

/// When a window fires, and what it holds then.
#[derive(Clone, Copy)]
pub enum WindowRule {
    /// This number of tuples, and then the window begins anew.
    TumblingCount(u64),
    /// Tuples whose attribute at that place exceeds the first one's by no more than the limit.
    TumblingDelta {
        attr: u32,
        limit: i128,
    },
    /// The tuples between window markers.
    TumblingPunct,
    /// The last `keep` tuples. In an Aggregate it fires after each `every` tuples; a Join has no `every`.
    SlidingCount {
        keep: u64,
        every: Option<u64>,
    },
    /// The tuples that no later one exceeds in the attribute by more than the limit. In an Aggregate it fires
    /// after each `every` tuples; a Join has no `every`.
    SlidingDelta {
        attr: u32,
        limit: i128,
        every: Option<u64>,
    },
}

/// A window of an input port. A partitioned one has a window for each value of some attributes.
#[derive(Clone, Copy)]
pub struct Policy {
    pub partitioned: bool,
    pub rule: WindowRule,
}

/// Where a Punctor puts its markers.
#[derive(Clone, Copy)]
pub enum Position {
    Before,
    After,
}

/// The value of a parameter of an operator.
#[derive(Drop)]
pub enum ParameterValue {
    File(Bytes),
    /// The one format that there is.
    Format,
    /// Whether a row that doesn't fit is a fault.
    Strict(bool),
    /// A condition, or an index.
    Code(Code<Slot>),
    Position(Position),
    /// Attributes by their places, in the order of the text.
    Places(Places),
}

/// A parameter that an operator is given, with its value.
#[derive(Drop)]
pub struct Given {
    pub name: Name,
    pub value: ParameterValue,
}

/// What an Aggregate makes of the values of an expression in a group. `Any` is `First`.
#[derive(Clone, Copy)]
pub enum Collector {
    /// The sum in that type.
    Sum(IntKind),
    Min,
    Max,
    First,
    Last,
    Count,
}

/// What an output attribute of an Aggregate gets, of which type. `Count` has no argument.
#[derive(Drop)]
pub struct CollectorCall {
    pub collector: Collector,
    pub argument: Option<Code<Slot>>,
    pub kind: SplType,
}

/// An output attribute of an Aggregate, by its place, and what it gets. `Count` has no argument.
pub struct CollectedAttribute {
    pub attribute: u32,
    pub collector: Collector,
    pub argument: Option<Code<Slot>>,
}

impl Drop for CollectedAttribute {
    fn drop(self) {
        let CollectedAttribute {
            attribute: _,
            collector: _,
            argument: _,
        } = self;
    }
}

/// A variable of the state of a Custom, and its first value.
pub struct StateVariable {
    pub variable: Variable,
    pub first: Code<Slot>,
}

impl Drop for StateVariable {
    fn drop(self) {
        let StateVariable {
            variable: _,
            first: _,
        } = self;
    }
}

/// A handler of a Custom: the event, the input port by its number, and what is done.
#[derive(Drop)]
pub struct Handled {
    pub event: HandledEvent,
    pub port: u32,
    pub body: Body,
}

/// What a Custom does on tuples and on markers, by its input ports. The first variables of each body are
/// those of the state. The one port that a body on tuples sees, as port 0, is its own.
pub struct Handlers {
    pub state: Items<StateVariable>,
    pub on_tuple: Items<Option<Body>>,
    pub on_punct: Items<Option<Body>>,
}

impl Drop for Handlers {
    fn drop(self) {
        let Handlers {
            state: _,
            on_tuple: _,
            on_punct: _,
        } = self;
    }
}

/// The clauses of an operator with their codes. The output of a Functor or a Join is the code of a
/// tuple, whose fields stand in the order in which they are evaluated.
pub enum CheckedClauses {
    FileSource {
        file: Bytes,
        strict: bool,
    },
    FileSink {
        file: Bytes,
    },
    Filter {
        condition: Option<Code<Slot>>,
    },
    Functor {
        condition: Option<Code<Slot>>,
        output: Code<Slot>,
    },
    Punctor {
        condition: Code<Slot>,
        position: Position,
    },
    Split {
        index: Code<Slot>,
    },
    /// For each input port, the places in its tuples of the output's attributes.
    Union {
        places: Items<Places>,
    },
    Custom {
        handlers: Handlers,
    },
    Aggregate {
        window: Policy,
        partition: Places,
        group: Places,
        output: Items<CollectedAttribute>,
    },
    Join {
        left: Policy,
        right: Policy,
        condition: Option<Code<Slot>>,
        output: Code<Slot>,
    },
}

impl Drop for CheckedClauses {
    fn drop(self) {
        match self {
            CheckedClauses::FileSource { file: _, strict: _ } => {}
            CheckedClauses::FileSink { file: _ } => {}
            CheckedClauses::Filter { condition: _ } => {}
            CheckedClauses::Functor {
                condition: _,
                output: _,
            } => {}
            CheckedClauses::Punctor {
                condition: _,
                position: _,
            } => {}
            CheckedClauses::Split { index: _ } => {}
            CheckedClauses::Union { places: _ } => {}
            CheckedClauses::Custom { handlers: _ } => {}
            CheckedClauses::Aggregate {
                window: _,
                partition: _,
                group: _,
                output: _,
            } => {}
            CheckedClauses::Join {
                left: _,
                right: _,
                condition: _,
                output: _,
            } => {}
        }
    }
}

/// The attributes of an operator's input and output ports.
#[derive(Drop)]
pub struct PortTypes {
    pub ins: Items<Schema>,
    pub outs: Items<Schema>,
}
