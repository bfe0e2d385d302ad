//! What leads back to itself, where each of some places leads to others.
ghost use Rattle.std.specs.Prelude.{◌≡◌, length, IfOk};
ghost use Rattle.language_model.specs.Leading.{leads_back};
ghost use Rattle.written_types.specs.Stepping.{steps_from, LeadsWithin};

use place_sets::PlaceSet;
use spl_value::{Items, NoMemory};
use std::alloc::Global;

/// Whether a place leads back to itself, where each place leads to those of its row. It takes the
/// time of one pass over the rows.
pub fn leads_back(alloc: Global, next: &[Items<u32>], place: u32) -> Result<bool, NoMemory>
    requires below { LeadsWithin next.now }
    ensures { IfOk result (λ b. b ≡ leads_back (length next.now) (steps_from next.now) place) }
{
    let Some(first) = next.get(place as usize) else {
        return Ok(false);
    };
    let mut found = PlaceSet::new(alloc, next.len())?;
    found.add_all(first.as_slice())?;
    let mut told = 0;
    'told: while told < found.places.len() {
        if found.has(place) {
            return Ok(true);
        }
        let from = found.places[told] as usize;
        found.add_all(next[from].as_slice())?;
        told += 1;
    }
    Ok(found.has(place))
}
