//! What comes of the expansion of composites: its refusals, and the parts of graphs in which streams have no
//! numbers yet.

use spl_tree::{OpKind, Site};
use spl_value::{Items, Name};

/// Why a program has no graph.
#[derive(Clone, Copy)]
pub enum ExpansionError {
    /// There is no main composite. The place is 0.
    NoMain,
    /// A composite or function reaches itself: the first call or invocation in its body that leads back
    /// to it, and its name.
    Recursive,
    /// A name is declared twice in one place: the later one.
    Twice,
    /// The invocation of the first operator that waits for itself, or for one that does, and the
    /// operator's first stream, or its own name where it makes none.
    Loop,
    /// The invocation of the later of two operators with one file, at least one of which is a sink, or that of a
    /// sink with a file of the command line; and the file.
    SameFile,
    /// The invocation with whose operator there are too many operators or connections.
    TooMany,
    /// An operator, a stream or a `$` parameter that isn't declared.
    Unknown,
    /// The invocation of a composite that doesn't fit its head, or one of whose outputs nothing makes,
    /// and the composite.
    Ports,
}

/// A refusal by the expansion: the byte of the program at which it comes, and the name that it is about,
/// where it is about one.
#[derive(Drop)]
pub struct ExpansionRefusal {
    pub error: ExpansionError,
    pub at: u32,
    pub name: Option<Name>,
}

/// The stream that a name of a graph means in an expansion: the number of the expansion, and the
/// place of the name among those of the streams that the graph makes, from 0.
#[derive(Clone, Copy)]
pub struct Source {
    pub expansion: u32,
    pub place: u32,
}

/// An operator of a graph in which streams have no numbers yet.
#[derive(Drop)]
pub struct Operation {
    pub name: Name,
    /// The name of its first stream, or its own where it makes none.
    pub label: Name,
    pub kind: OpKind,
    /// What each input port takes.
    pub ins: Items<Items<Source>>,
    /// How many streams it makes.
    pub outputs: u32,
    pub site: Site,
    /// The place of its invocation in the program.
    pub at: u32,
}
