ghost use Rattle.std.specs.Prelude.{◌≡◌, IfOk};

use crate::{NoMemory, Value, Values, copy_values};
use std::alloc::Global;

/// Why an operator ended early.
#[derive(Clone, Copy)]
pub enum FaultKind {
    /// The divisor of `/` or `%` is zero.
    DivZero,
    /// A list index or a `substring` bound is out of range.
    Index,
    /// A map has no such key.
    NoKey,
    /// One event needs more loop rounds and function calls than it may take.
    Turns,
    /// A row is bad or doesn't fit the schema, where rows are parsed strictly.
    BadRow,
    /// A row is longer than 65,536 bytes.
    LongRow,
    /// A source file is longer than 2^40 bytes.
    LongFile,
    /// The source's read failed.
    ReadFailed,
}

/// A fault: the number of the operator that ended, the kind, and for a source's fault the line of
/// its file, counted from 1; else the line is 0.
#[derive(Clone, Copy)]
pub struct Fault {
    pub op: u32,
    pub kind: FaultKind,
    pub line: u64,
}

/// What a stream is a list of. Nothing follows `Final` or `Bad`.
#[derive(Drop)]
pub enum Item {
    /// A tuple: its attributes' values, in the order of its schema.
    Tuple(Values),
    /// A window marker.
    Window,
    /// The final marker.
    Final,
    /// A fault, in place of the final marker.
    Bad(Fault),
}

/// The result of an evaluation: a value, a fault, or lack of memory.
#[derive(Drop)]
pub enum Evaluated {
    Value(Value),
    Bad(FaultKind),
    Memory,
}

/// A copy of an item.
pub fn copy_item(alloc: Global, i: &Item) -> Result<Item, NoMemory>
    ensures { IfOk result (λ j. j ≡ i.now) }
{
    match i {
        Item::Tuple(values) => Ok(Item::Tuple(copy_values(alloc, values.as_slice())?)),
        Item::Window => Ok(Item::Window),
        Item::Final => Ok(Item::Final),
        Item::Bad(fault) => Ok(Item::Bad(*fault)),
    }
}
