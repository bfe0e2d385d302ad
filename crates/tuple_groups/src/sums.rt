//! Sums of values, each in its type.
ghost use Rattle.std.specs.Prelude.{◌≡◌, List};
ghost use Rattle.std.specs.List.{cons_option};
ghost use Rattle.std.specs.Option.{option_copied};
ghost use Rattle.spl_value.specs.Wrap.{wrapped};
ghost use Rattle.spl_value.specs.declared.value.Value.{Value as V};
ghost use Rattle.spl_value.specs.declared.value.Value.TheViews.{out-Value};
ghost use Rattle.stream_model.specs.Aggregates.{total as total_of};
ghost use Rattle.stream_model.specs.Windows.{integer_of as integer_in};
ghost use Rattle.tuple_groups.specs.Columns.{column};
ghost use Rattle.tuple_groups.specs.Seen.{seen};

use spl_value::{IntKind, Value, Values, wrap};

/// The integer of a value, and 0 where it is none.
pub fn integer_of(value: &Value) -> i128
    ensures { result ≡ integer_in (out-Value value.now) }
{
    match value {
        Value::Int(n) => *n,
        _ => 0,
    }
}

/// A sum in a type with one value more, where there is one.
fn with_value(kind: IntKind, sum: i128, value: Option<&Value>) -> i128
    requires { (vs : List V) × (sum ≡ wrapped kind (total_of vs)) }
    ensures { (vs : List V) → sum ≡ wrapped kind (total_of vs) → result ≡ wrapped kind (total_of (cons_option (option_copied value.entry) vs)) }
{
    match value {
        Some(value) => {
            let first = wrap(kind, integer_of(value));
            wrap(kind, first + sum)
        }
        None => sum,
    }
}

/// The sum of the values at a place of tuples. It wraps in its type.
pub(crate) fn total(kind: IntKind, tuples: &[&Values], place: usize) -> i128
    ensures { result ≡ wrapped kind (total_of (column place (seen tuples.now))) }
{
    let mut sum = wrap(kind, 0);
    let mut left = tuples.len();
    'left: while left > 0 {
        left -= 1;
        sum = with_value(kind, sum, tuples[left].get(place));
    }
    sum
}
