//! What operators give, where it stands.

/// What was given.
#[derive(Clone, Copy)]
pub enum Given {
    /// The tuple at the place with this number, alone, on the first output port.
    Tuple(usize),
    Nothing,
    /// What stands among the outputs.
    Outs,
}
