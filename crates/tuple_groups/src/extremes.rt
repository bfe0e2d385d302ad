//! Values that stand first among others: in their order, or by the order of their tuples.
ghost use Rattle.std.specs.Prelude.{◌≡◌, List};
ghost use Rattle.std.specs.List.{cons_option};
ghost use Rattle.std.specs.Option.{option_copied};
ghost use Rattle.spl_value.specs.declared.value.Value.{Value as V};
ghost use Rattle.stream_model.specs.Aggregates.{last as last_of, least_by};
ghost use Rattle.stream_model.specs.parts.Aggregates.{first as first_of, first_of_two};
ghost use Rattle.tuple_groups.specs.Columns.{column};
ghost use Rattle.tuple_groups.specs.Extremes.{before};
ghost use Rattle.tuple_groups.specs.Seen.{seen};

use spl_value::{Value, Values, order};
use std::cmp::Ordering;

/// Whether the first value comes before the second one: the greater one, or the lesser one.
pub fn is_before(greatest: bool, v: &Value, w: &Value) -> bool
    ensures { result ≡ before greatest v.now w.now }
{
    let order = if greatest { order(w, v) } else { order(v, w) };
    matches!(order, Ordering::Less)
}

/// A value, or another one that comes before it.
fn better<'a>(greatest: bool, v: &'a Value, best: Option<&'a Value>) -> &'a Value
    ensures { result.now ≡ first_of_two (before greatest) v.now (option_copied best.entry) }
{
    match best {
        Some(w) => { if is_before(greatest, w, v) { w } else { v } }
        None => v,
    }
}

/// The value that comes before the others, with one value more, where there is one.
fn with_value<'a>(
    greatest: bool,
    value: Option<&'a Value>,
    best: Option<&'a Value>,
) -> Option<&'a Value>
    ensures { (vs : List V) → option_copied best.entry ≡ least_by (before greatest) vs
        → option_copied result ≡ least_by (before greatest) (cons_option (option_copied value.entry) vs) }
{
    match value {
        Some(v) => Some(better(greatest, v, best)),
        None => best,
    }
}

/// The greatest or the least of the values at a place of tuples.
pub(crate) fn extreme<'a>(greatest: bool, tuples: &[&'a Values], place: usize) -> Option<&'a Value>
    ensures { option_copied result ≡ least_by (before greatest) (column place (seen tuples.now)) }
{
    let mut best = None;
    let mut left = tuples.len();
    'left: while left > 0 {
        left -= 1;
        best = with_value(greatest, tuples[left].get(place), best);
    }
    best
}

/// The first value at a place of tuples.
pub(crate) fn first<'a>(tuples: &[&'a Values], place: usize) -> Option<&'a Value>
    ensures { option_copied result ≡ first_of (column place (seen tuples.now)) }
{
    for tuple in tuples {
        if let Some(value) = tuple.get(place) {
            return Some(value);
        }
    }
    None
}

/// The last value at a place of tuples.
pub(crate) fn last<'a>(tuples: &[&'a Values], place: usize) -> Option<&'a Value>
    ensures { option_copied result ≡ last_of (column place (seen tuples.now)) }
{
    let mut left = tuples.len();
    'left: while left > 0 {
        left -= 1;
        if let Some(value) = tuples[left].get(place) {
            return Some(value);
        }
    }
    None
}
