//! The lesser and the greater of two values.
ghost use Rattle.spl_value.specs.Calls.{Answers, Gives, FitOrdered, min_of, max_of};

use spl_value::{Evaluated, Value, copy_value, order};
use std::alloc::Global;

/// `min`: a copy of the lesser of two integers of one type, by number, or of two texts, by bytes.
pub fn min(alloc: Global, a: &Value, b: &Value) -> Evaluated
    requires { FitOrdered a.now b.now }
    ensures { Answers result (min_of a.now b.now) }
{
    let least = if order(a, b).is_gt() { b } else { a };
    copied(alloc, least)
}

/// `max`: a copy of the greater of two integers of one type, by number, or of two texts, by bytes.
pub fn max(alloc: Global, a: &Value, b: &Value) -> Evaluated
    requires { FitOrdered a.now b.now }
    ensures { Answers result (max_of a.now b.now) }
{
    let greatest = if order(a, b).is_gt() { a } else { b };
    copied(alloc, greatest)
}

fn copied(alloc: Global, v: &Value) -> Evaluated
    ensures { Answers result (Gives v.now) }
{
    match copy_value(alloc, v) {
        Ok(copy) => Evaluated::Value(copy),
        Err(_) => Evaluated::Memory,
    }
}
