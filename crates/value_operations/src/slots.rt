//! The values of names, markers and fields.
ghost use Rattle.std.specs.Prelude.{◌≡◌, IsTrue, IfOk, MatchOption, Some, length};
ghost use Rattle.spl_value.specs.declared.types.SplType.TheVariants as T;
ghost use Rattle.spl_value.specs.Values.{fits};
ghost use Rattle.language_model.specs.Evaluation.{slot_value, same_marker};
ghost use Rattle.language_model.specs.parts.Operators.{truth_of};
ghost use Rattle.value_operations.specs.Answers.{Entered, ReadsHeld};
ghost use Rattle.value_operations.specs.Fitting.{HasSlot, HasMarker, IsPort};

use crate::held::Held;
use crate::stop::Stop;
use language_model::Env;
use spl_tree::{Marker, Slot};
use spl_value::{FaultKind, Reserved, Value, Values, copy_values};
use std::alloc::{AllocError, Global};

/// The value of a variable or an attribute, where it stands. That of a port stands nowhere.
pub fn standing_value(env: &Env, slot: Slot) -> Option<&Value>
    requires { HasSlot env.now slot }
    ensures { MatchOption result (IsPort slot) (λ v. slot_value env.now slot ≡ Some v.now) }
{
    match slot {
        Slot::Variable(place) => Some(&env.vars.as_slice()[place as usize]),
        Slot::Attribute { port, attribute } => {
            let tuple = &env.inputs.as_slice()[port as usize];
            Some(&tuple.as_slice()[attribute as usize])
        }
        Slot::Port(_) => None,
    }
}

/// The value of a name. The tuple of a port is a copy.
pub fn slot_value(alloc: Global, env: &Env, slot: Slot) -> Result<Held<'_>, Stop>
    requires { HasSlot env.now slot }
    ensures { ReadsHeld (slot_value env.now slot) result }
{
    match standing_value(env, slot) {
        Some(value) => Ok(Held::Lent(value)),
        None => port_value(alloc, env, slot),
    }
}

/// A copy of the tuple of a port.
#[inline(never)]
fn port_value<'e>(alloc: Global, env: &'e Env, slot: Slot) -> Result<Held<'e>, Stop>
    requires slot { HasSlot env.now slot }
    requires port { IsPort slot }
    ensures { ReadsHeld (slot_value env.now slot) result }
{
    let Slot::Port(port) = slot else {
        unreachable!()
    };
    let tuple = &env.inputs.as_slice()[port as usize];
    Ok(Held::Own(Value::Tuple(copy_values(alloc, tuple.as_slice())?)))
}

/// Whether the marker that came is this one.
pub fn is_marker(env: &Env, marker: Marker) -> bool
    requires { HasMarker env.now }
    ensures { (m : Marker) → env.now.punct ≡ Some m → result ≡ same_marker marker m }
{
    match env.punct {
        Some(came) => came == marker,
        None => unreachable!(),
    }
}

/// The truth of a boolean.
pub fn truth_of(value: &Value) -> bool
    requires { IsTrue (fits T.Bool value.now) }
    ensures { truth_of value.now ≡ Some result }
{
    match value {
        Value::Bool(truth) => *truth,
        _ => unreachable!(),
    }
}

/// Takes a turn.
pub fn enter(turns: &mut u32) -> Result<(), Stop>
    ensures { Entered turns.old result turns.new }
{
    match turns.checked_sub(1) {
        Some(left) => {
            *turns = left;
            Ok(())
        }
        None => Err(Stop::Fault(FaultKind::Turns)),
    }
}

/// `count` values, each of which is to be replaced, in the room of a list whose values are dropped.
pub fn blanks(list: Values, count: usize) -> Result<Values, AllocError>
    ensures { IfOk result (λ values. length values ≡ count) }
{
    let mut values = Reserved::within(list, count)?;
    'values: for _ in 0..count {
        values.push(Value::Bool(false));
    }
    Ok(values.into_items())
}
