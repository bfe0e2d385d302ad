use spl_value::{Ids, Items, Name};

/// What remains of a program once each composite is replaced by its body: operators, and the streams
/// between them.
pub struct Graph {
    /// In order of declaration: those of a composite stand where it is invoked.
    pub ops: Items<Op>,
    /// Those of an operator stand together, in the order of its ports, and operators in their order.
    pub streams: Items<Stream>,
    /// That of the main composite first, and each other after the one in which it is invoked. One
    /// that makes no operator isn't among them.
    pub expansions: Items<Expansion>,
    /// The numbers of the operators, each after those that make its streams: again and again the
    /// first one whose inputs are all made by operators that stand there already.
    pub topo: Ids,
}

impl Drop for Graph {
    fn drop(self) {
        let Graph {
            ops: _,
            streams: _,
            expansions: _,
            topo: _,
        } = self;
    }
}

/// An operator. Its clauses are those of its invocation.
pub struct Op {
    /// Its alias or else its first output stream. Within the expansion of an invocation that is named
    /// N, it is N, a dot and that.
    pub name: Name,
    pub kind: OpKind,
    /// The streams of each input port.
    pub ins: Items<Ids>,
    pub outs: Ids,
    pub site: Site,
    /// The place of its invocation in the program.
    pub at: u32,
}

impl Drop for Op {
    fn drop(self) {
        let Op {
            name: _,
            kind: _,
            ins: _,
            outs: _,
            site: _,
            at: _,
        } = self;
    }
}

/// The kinds of operator that the language has.
#[derive(Clone, Copy)]
pub enum OpKind {
    FileSource,
    FileSink,
    Filter,
    Functor,
    Punctor,
    Split,
    Union,
    Custom,
    Aggregate,
    Join,
}

/// A stream. Its type is written where it is made.
#[derive(Clone, Copy)]
pub struct Stream {
    /// The operator that makes it, and the port on which it does.
    pub maker: u32,
    pub port: u32,
}

/// An invocation within an expansion: the number of the expansion, and the place of the invocation in
/// the graph of its composite.
#[derive(Clone, Copy)]
pub struct Site {
    pub expansion: u32,
    pub invocation: u32,
}

/// The body of a composite, put where it is invoked. What the names in the body mean, `$` parameters too,
/// is found by the composite and by the invocation there.
pub struct Expansion {
    /// The composite's place among those of the unit.
    pub composite: u32,
    /// None for the main composite.
    pub site: Option<Site>,
    /// The streams that the names of its graph mean, by their order in the text.
    pub streams: Ids,
    pub inputs: Items<InputStreams>,
}

impl Drop for Expansion {
    fn drop(self) {
        let Expansion {
            composite: _,
            site: _,
            streams: _,
            inputs: _,
        } = self;
    }
}

/// The streams that an input of a composite's head takes.
#[derive(Clone, Copy)]
pub struct InputStreams {
    /// How many streams, of which no more than 2^30 are counted.
    pub count: u32,
    /// The first of them, or 0 where there is none.
    pub first: u32,
}
