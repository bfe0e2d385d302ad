//! What is kept for a fold of values that leave one by one.
ghost use Rattle.std.specs.Prelude.{◌≡◌, ◌∷◌, ◌++◌, [], List, IfOk, length, slice_get};
ghost use Rattle.std.specs.Option.{option_copied};
ghost use Rattle.spl_value.specs.declared.value.Value.{Value as V};
ghost use Rattle.stream_model.specs.Aggregates.{last as last_of};
ghost use Rattle.running_folds.specs.Folds.{folded};
ghost use Rattle.running_folds.specs.Moving.{Moves, fold_of};

use crate::queue::{best, leave, pass};
use crate::total::Total;
use language_model::Collector;
use spl_value::{IntKind, NoMemory, Value, copy_value, wrap};
use std::alloc::Global;
use std::collections::VecDeque;
use tuple_groups::integer_of;

/// What is kept for a fold of the values that came and haven't left. They leave in the order in which they came.
#[derive(Drop)]
pub enum Moving {
    Sum(Total),
    /// The values that are the greatest or the least one, or may yet be it.
    Extreme {
        greatest: bool,
        queue: VecDeque<Value>,
    },
    /// The values themselves give these.
    First,
    Last,
    Count,
}

/// A copy of a value, where there is one.
fn copied(alloc: Global, value: Option<&Value>) -> Result<Option<Value>, NoMemory>
    ensures { IfOk result (λ copy. copy ≡ option_copied value.entry) }
{
    match value {
        Some(value) => {
            let copy = copy_value(alloc, value)?;
            Ok(Some(copy))
        }
        None => Ok(None),
    }
}

impl Moving {
    /// What is kept before a value came.
    pub fn new(alloc: Global, fold: Collector) -> Moving
        ensures fold { fold_of result ≡ fold }
        ensures moves { Moves result [] }
    {
        match fold {
            Collector::Sum(kind) => Moving::Sum(Total::new(kind)),
            Collector::Min => Moving::Extreme {
                greatest: false,
                queue: VecDeque::new(alloc),
            },
            Collector::Max => Moving::Extreme {
                greatest: true,
                queue: VecDeque::new(alloc),
            },
            Collector::First => Moving::First,
            Collector::Last => Moving::Last,
            Collector::Count => Moving::Count,
        }
    }

    /// Takes one more value.
    pub fn pass(&mut self, alloc: Global, value: &Value) -> Result<(), NoMemory>
        ensures fold { IfOk result (λ _. fold_of self.new ≡ fold_of self.old) }
        ensures moves { IfOk result (λ _. (vs : List V) → Moves self.old vs → Moves self.new (vs ++ value.now ∷ [])) }
    {
        match self {
            Moving::Sum(total) => {
                total.add(integer_of(value));
                Ok(())
            }
            Moving::Extreme { greatest, queue } => pass(alloc, *greatest, queue, value),
            _ => Ok(()),
        }
    }

    /// Lets the first value go.
    pub fn leave(&mut self, value: &Value)
        ensures fold { fold_of self.new ≡ fold_of self.old }
        ensures moves { (vs : List V) → Moves self.old (value.now ∷ vs) → Moves self.new vs }
    {
        match self {
            Moving::Sum(total) => total.subtract(integer_of(value)),
            Moving::Extreme { greatest, queue } => leave(*greatest, queue, value),
            _ => {}
        }
    }

    /// What the fold makes of the values, where it makes something: the first and the last of them, and their number,
    /// are given.
    pub fn made(
        &self,
        alloc: Global,
        first: Option<&Value>,
        last: Option<&Value>,
        count: usize,
    ) -> Result<Option<Value>, NoMemory>
        ensures { IfOk result (λ made. (vs : List V) → Moves self.now vs → option_copied first.entry ≡ slice_get vs 0 → option_copied last.entry ≡ last_of vs
            → count ≡ length vs → made ≡ folded (fold_of self.now) vs) }
    {
        match self {
            Moving::Sum(total) => Ok(Some(Value::Int(total.sum))),
            Moving::Extreme { greatest, queue } => {
                let made = copied(alloc, best(*greatest, queue))?;
                Ok(made)
            }
            Moving::First => copied(alloc, first),
            Moving::Last => copied(alloc, last),
            Moving::Count => Ok(Some(Value::Int(wrap(IntKind::I32, count as i128)))),
        }
    }
}
