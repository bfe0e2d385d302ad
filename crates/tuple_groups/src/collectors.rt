//! What a collector makes of the values at a place of tuples.
ghost use Rattle.std.specs.Prelude.{◌≡◌, IfOk, length};
ghost use Rattle.std.specs.Option.{option_copied};
ghost use Rattle.stream_model.specs.Aggregates.{collected as collected_of};
ghost use Rattle.tuple_groups.specs.Columns.{column};
ghost use Rattle.tuple_groups.specs.Seen.{seen};

use crate::extremes::{extreme, first, last};
use crate::sums::total;
use language_model::Collector;
use spl_value::{IntKind, NoMemory, Value, Values, copy_value, wrap};
use std::alloc::Global;

/// A copy of a value, where there is one.
fn copied(alloc: Global, value: Option<&Value>) -> Result<Option<Value>, NoMemory>
    ensures { IfOk result (λ copy. copy ≡ option_copied value.entry) }
{
    match value {
        Some(value) => {
            let copy = copy_value(alloc, value)?;
            Ok(Some(copy))
        }
        None => Ok(None),
    }
}

/// What a collector makes of the values at a place of tuples, where it makes something.
pub(crate) fn collected(
    alloc: Global,
    collector: Collector,
    tuples: &[&Values],
    place: usize,
) -> Result<Option<Value>, NoMemory>
    ensures { IfOk result (λ made. made ≡ collected_of collector (length (seen tuples.now)) (column place (seen tuples.now))) }
{
    match collector {
        Collector::Sum(kind) => Ok(Some(Value::Int(total(kind, tuples, place)))),
        Collector::Min => copied(alloc, extreme(false, tuples, place)),
        Collector::Max => copied(alloc, extreme(true, tuples, place)),
        Collector::First => copied(alloc, first(tuples, place)),
        Collector::Last => copied(alloc, last(tuples, place)),
        Collector::Count => Ok(Some(Value::Int(wrap(IntKind::I32, tuples.len() as i128)))),
    }
}
