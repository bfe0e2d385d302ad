//! The environment in which a pair of tuples is looked at.
ghost use Rattle.std.specs.Prelude.{◌≡◌, ◌<◌, IfOk, Some, length, slice_get};
ghost use Rattle.join_op.specs.Pairs.{other_place, own_place, with_other, with_own};

use crate::side::Side;
use language_model::Env;
use spl_value::{NoMemory, Values, copy_value};
use std::alloc::Global;
use std::mem;

/// Copies values into a list that is used again.
fn copy_into(alloc: Global, room: &mut Values, values: &Values) -> Result<(), NoMemory>
    ensures { IfOk result (λ _. room.new ≡ values.now) }
{
    room.clear();
    for value in values.as_slice() {
        room.push(copy_value(alloc, value)?)?;
    }
    Ok(())
}

/// Puts a copy of a tuple of the other side into the pair.
pub(crate) fn set_other(
    alloc: Global,
    env: &mut Env,
    side: Side,
    tuple: &Values,
) -> Result<(), NoMemory>
    requires { other_place side < length env.old.inputs }
    ensures { IfOk result (λ _. env.new ≡ with_other side env.old tuple.now) }
{
    let room = env.inputs.item_mut(side.other());
    copy_into(alloc, room, tuple)
}

/// Puts a tuple of the side into the pair, and takes out what was there.
pub(crate) fn swap_own(env: &mut Env, side: Side, tuple: Values) -> Values
    requires { own_place side < length env.old.inputs }
    ensures before { slice_get env.old.inputs (own_place side) ≡ Some result }
    ensures now { env.new ≡ with_own side env.old tuple }
{
    let place = env.inputs.item_mut(side.own());
    mem::replace(place, tuple)
}
