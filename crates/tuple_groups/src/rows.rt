//! The tuple of a group.
ghost use Rattle.std.specs.Prelude.{◌≡◌, ◌<◌, ◌^◌, ℕ, List, Some, IfOk};
ghost use Rattle.spl_value.specs.declared.value.Value.{Value as V};
ghost use Rattle.language_model.specs.Evaluation.{field_at};
ghost use Rattle.tuple_groups.specs.Columns.{fields_at, tuple_at};
ghost use Rattle.tuple_groups.specs.Seen.{seen};

use crate::collectors::collected;
use language_model::CollectedAttribute;
use spl_value::{Items, NoMemory, Value, Values};
use std::alloc::Global;

/// What the assignment of an attribute gets of the tuples of a group.
fn attribute_of(
    alloc: Global,
    output: &[CollectedAttribute],
    width: usize,
    tuples: &[&Values],
    attribute: usize,
) -> Result<Value, NoMemory>
    requires width { width < 2 ^ 63 }
    requires there { (fs : List (ℕ × V)) × (v : V) × (fields_at width output.now (seen tuples.now) ≡ Some fs) × (field_at attribute fs ≡ Some v) }
    ensures { IfOk result (λ v. (fs : List (ℕ × V)) → fields_at width output.now (seen tuples.now) ≡ Some fs → field_at attribute fs ≡ Some v) }
{
    for (k, assignment) in output.iter().enumerate() {
        if assignment.attribute as usize == attribute {
            let Some(value) = collected(alloc, assignment.collector, tuples, width + k)? else {
                unreachable!()
            };
            return Ok(value);
        }
    }
    unreachable!()
}

/// The tuple of a group, where the values of the first assignment stand at place `width` of its tuples,
/// and those of the others after it.
pub fn group_tuple(
    alloc: Global,
    output: &Items<CollectedAttribute>,
    width: usize,
    tuples: &[&Values],
) -> Result<Values, NoMemory>
    requires width { width < 2 ^ 63 }
    requires there { (vs : List V) × (tuple_at width output.now (seen tuples.now) ≡ Some vs) }
    ensures { IfOk result (λ vs. tuple_at width output.now (seen tuples.now) ≡ Some vs) }
{
    let mut values = Items::with_capacity(alloc, output.len())?;
    for attribute in 0..output.len() {
        let value = attribute_of(alloc, output.as_slice(), width, tuples, attribute)?;
        values.push(value)?;
    }
    Ok(values)
}
