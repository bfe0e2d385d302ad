//! Sums that wrap.
ghost use Rattle.std.specs.Prelude.{◌≡◌, ◌+ℤ◌, ℤ, pos, IsTrue};
ghost use Rattle.spl_value.specs.Values.{kind_holds};
ghost use Rattle.spl_value.specs.Wrap.{wrapped};

use spl_value::{IntKind, wrap};

/// A sum that wraps in its type.
#[derive(Clone, Copy)]
pub struct Total {
    pub kind: IntKind,
    pub sum: i128,
    pub ghost holds: { IsTrue (kind_holds kind sum) },
}

impl Total {
    /// The sum of no numbers.
    pub fn new(kind: IntKind) -> Total
        ensures kind { result.kind ≡ kind }
        ensures sum { result.sum ≡ wrapped kind (pos 0) }
    {
        Total {
            kind,
            sum: wrap(kind, 0),
        }
    }

    /// Adds a number.
    pub fn add(&mut self, n: i128)
        ensures kind { self.new.kind ≡ self.old.kind }
        ensures sum { (t : ℤ) → self.old.sum ≡ wrapped self.old.kind t → self.new.sum ≡ wrapped self.old.kind (n +ℤ t) }
    {
        let kind = self.kind;
        let n = wrap(kind, n);
        self.sum = wrap(kind, n + self.sum);
    }

    /// Takes a number out.
    pub fn subtract(&mut self, n: i128)
        ensures kind { self.new.kind ≡ self.old.kind }
        ensures sum { (t : ℤ) → self.old.sum ≡ wrapped self.old.kind (n +ℤ t) → self.new.sum ≡ wrapped self.old.kind t }
    {
        let kind = self.kind;
        let n = wrap(kind, n);
        self.sum = wrap(kind, self.sum - n);
    }
}
