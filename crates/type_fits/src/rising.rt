//! Keys that rise.
ghost use Rattle.std.specs.Prelude.{◌≡◌};
ghost use Rattle.spl_value.specs.Pairs.{are_pairs};

use spl_value::{Pairs, Value, order};
use std::cmp::Ordering;

/// Whether each key is below all that follow it.
pub(crate) fn keys_rise(pairs: &Pairs) -> bool
    ensures { result ≡ are_pairs pairs.now }
{
    let mut before: Option<&Value> = None;
    for pair in pairs {
        if let Some(key) = before {
            let Ordering::Less = order(key, &pair.0) else {
                return false;
            };
        }
        before = Some(&pair.0);
    }
    true
}
