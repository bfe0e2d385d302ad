use spl_value::{FaultKind, Values};

/// Whether a condition holds.
#[derive(Clone, Copy)]
pub enum Truth {
    Is(bool),
    Bad(FaultKind),
    /// There was no memory, or no room for a deeper code.
    Memory,
}

/// The result of a code of a tuple.
#[derive(Drop)]
pub enum Made {
    Tuple(Values),
    Bad(FaultKind),
    /// There was no memory, or no room for a deeper code.
    Memory,
}
