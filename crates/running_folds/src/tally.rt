//! What is kept for a fold of values that all leave at once.
ghost use Rattle.std.specs.Prelude.{◌≡◌, ◌∷◌, ◌++◌, [], List};
ghost use Rattle.spl_value.specs.declared.value.Value.{Value as V};
ghost use Rattle.stream_model.specs.Aggregates.{least_by};
ghost use Rattle.tuple_groups.specs.Extremes.{before};
ghost use Rattle.running_folds.specs.Tallies.{Tallied, fold_of, made_of};

use crate::total::Total;
use language_model::Collector;
use spl_value::{IntKind, Value};
use tuple_groups::{integer_of, is_before};

/// What is kept for a fold of the values that came. None of them leaves before the others.
#[derive(Drop)]
pub enum Tally {
    Sum(Total),
    /// The greatest or the least value.
    Extreme { greatest: bool, best: Option<Value> },
    First(Option<Value>),
    Last(Option<Value>),
    /// How many values came.
    Count(Total),
}

/// The first of two values by their order, where the first one stands before the second one where they are equal.
fn better(greatest: bool, best: Option<Value>, value: Value) -> Value
    ensures { (vs : List V) → best ≡ least_by (before greatest) vs → Some result ≡ least_by (before greatest) (vs ++ value ∷ []) }
{
    match best {
        Some(best) => {
            if is_before(greatest, &value, &best) {
                value
            } else {
                best
            }
        }
        None => value,
    }
}

impl Tally {
    /// What is kept before a value came.
    pub fn new(fold: Collector) -> Tally
        ensures fold { fold_of result ≡ fold }
        ensures tallied { Tallied result [] }
    {
        match fold {
            Collector::Sum(kind) => Tally::Sum(Total::new(kind)),
            Collector::Min => Tally::Extreme {
                greatest: false,
                best: None,
            },
            Collector::Max => Tally::Extreme {
                greatest: true,
                best: None,
            },
            Collector::First => Tally::First(None),
            Collector::Last => Tally::Last(None),
            Collector::Count => Tally::Count(Total::new(IntKind::I32)),
        }
    }

    /// Takes one more value.
    pub fn add(&mut self, value: Value)
        ensures fold { fold_of self.new ≡ fold_of self.old }
        ensures tallied { (vs : List V) → Tallied self.old vs → Tallied self.new (vs ++ value ∷ []) }
    {
        match self {
            Tally::Sum(total) => total.add(integer_of(&value)),
            Tally::Extreme { greatest, best } => {
                *best = Some(better(*greatest, best.take(), value));
            }
            Tally::First(first) => {
                if first.is_none() {
                    *first = Some(value);
                }
            }
            Tally::Last(last) => *last = Some(value),
            Tally::Count(count) => count.add(1),
        }
    }

    /// What the fold makes of the values, where it makes something. They leave.
    pub fn take(&mut self) -> Option<Value>
        ensures fold { fold_of self.new ≡ fold_of self.old }
        ensures made { result ≡ made_of self.old }
        ensures tallied { Tallied self.new [] }
    {
        match self {
            Tally::Sum(total) => {
                let sum = total.sum;
                *total = Total::new(total.kind);
                Some(Value::Int(sum))
            }
            Tally::Extreme { greatest: _, best } => best.take(),
            Tally::First(first) => first.take(),
            Tally::Last(last) => last.take(),
            Tally::Count(count) => {
                let sum = count.sum;
                *count = Total::new(IntKind::I32);
                Some(Value::Int(sum))
            }
        }
    }
}
