//! The two sides of a Join.
ghost use Rattle.std.specs.Prelude.{◌≡◌};
ghost use Rattle.join_op.specs.Pairs.{other_place, own_place};

/// The port that a tuple comes on, of a Join's two.
#[derive(Clone, Copy)]
pub(crate) enum Side {
    Left,
    Right,
}

impl Side {
    /// The place of the tuple in a pair.
    pub(crate) fn own(self) -> usize
        ensures { result ≡ own_place self }
    {
        match self {
            Side::Left => 0,
            Side::Right => 1,
        }
    }

    /// The place of the other tuple.
    pub(crate) fn other(self) -> usize
        ensures { result ≡ other_place self }
    {
        match self {
            Side::Left => 1,
            Side::Right => 0,
        }
    }
}
