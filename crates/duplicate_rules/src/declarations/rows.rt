//! Rows whose parts have sets of names within them.
ghost use Rattle.std.specs.Prelude.{◌≡◌, IfOk, flat_map};
ghost use Rattle.std.specs.Option.{option_copied};
ghost use Rattle.duplicate_rules.specs.steps.Earliest.{earliest_in};

use super::names::Repeated;
use spl_tree::Placed;
use spl_value::Name;
use std::alloc::Global;

/// A part of a row, within which there may be sets of names.
pub(super) trait Encloses {
    ghost use Rattle.language_model.specs.Declarations.{Sets};

    ghost inner: { Self → Sets };

    /// Of a name and those that repeat an earlier one within, the one that comes first in the text.
    fn earliest<'u>(&'u self, alloc: Global, best: Option<&'u Placed<Name>>) -> Repeated<'u>
        ensures { IfOk result (λ found. option_copied found ≡ earliest_in (option_copied best.entry) (inner self.now)) };
}

/// Of a name and those that repeat an earlier one within the parts, the one that comes first in the text.
pub(super) fn earliest_within<'u, T: Encloses>(
    alloc: Global,
    best: Option<&'u Placed<Name>>,
    row: &'u [T],
) -> Repeated<'u>
    ensures { IfOk result (λ found. option_copied found ≡ earliest_in (option_copied best.entry) (flat_map T.inner row.now)) }
{
    let mut found = best;
    for part in row {
        found = part.earliest(alloc, found)?;
    }
    Ok(found)
}
