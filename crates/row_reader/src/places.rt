//! Values put at the places of a tuple. What stands there is written over, and a text keeps its room.
ghost use Rattle.std.specs.Prelude.{◌≡◌, ◌≤◌, ◌++◌, ◌∷◌, [], length, take, OnOk};
ghost use Rattle.spl_value.specs.declared.value.Value.TheVariants as V;
ghost use Rattle.row_reader.specs.steps.Adding.{IsPut};

use spl_value::{Items, NoMemory, Value, Values};
use std::alloc::Global;

/// Puts a value over one of another kind.
#[cold]
#[inline(never)]
fn put_over(slot: &mut Value, value: Value)
    ensures { slot.new ≡ value }
{
    *slot = value;
}

/// Adds a value behind the others.
#[cold]
#[inline(never)]
fn add(tuple: &mut Values, value: Value) -> Result<(), NoMemory>
    ensures { OnOk result (tuple.new ≡ tuple.old ++ value ∷ []) }
{
    tuple.push(value)?;
    Ok(())
}

#[inline(always)]
fn set_number(slot: &mut Value, n: i128)
    ensures { slot.new ≡ V.Int n }
{
    if let Value::Int(old) = slot {
        *old = n;
        return;
    }
    put_over(slot, Value::Int(n));
}

#[inline(always)]
fn set_truth(slot: &mut Value, b: bool)
    ensures { slot.new ≡ V.Bool b }
{
    if let Value::Bool(old) = slot {
        *old = b;
        return;
    }
    put_over(slot, Value::Bool(b));
}

#[inline(always)]
fn set_text(alloc: Global, slot: &mut Value, bytes: &[u8]) -> Result<(), NoMemory>
    ensures { OnOk result (slot.new ≡ V.Text bytes.now) }
{
    if let Value::Text(text) = slot {
        text.clear();
        text.extend_from_slice(bytes)?;
        return Ok(());
    }
    put_over(slot, Value::Text(Items::from_slice(alloc, bytes)?));
    Ok(())
}

/// Puts a number at a place.
#[inline(always)]
pub(crate) fn put_number(tuple: &mut Values, at: usize, n: i128) -> Result<(), NoMemory>
    requires { at ≤ length tuple.old }
    ensures { OnOk result (IsPut at (V.Int n) tuple.old tuple.new) }
{
    if at < tuple.len() {
        set_number(tuple.item_mut(at), n);
        return Ok(());
    }
    add(tuple, Value::Int(n))
}

/// Puts a boolean at a place.
#[inline(always)]
pub(crate) fn put_truth(tuple: &mut Values, at: usize, b: bool) -> Result<(), NoMemory>
    requires { at ≤ length tuple.old }
    ensures { OnOk result (IsPut at (V.Bool b) tuple.old tuple.new) }
{
    if at < tuple.len() {
        set_truth(tuple.item_mut(at), b);
        return Ok(());
    }
    add(tuple, Value::Bool(b))
}

/// Puts a text at a place.
#[inline(always)]
pub(crate) fn put_text(
    alloc: Global,
    tuple: &mut Values,
    at: usize,
    bytes: &[u8],
) -> Result<(), NoMemory>
    requires { at ≤ length tuple.old }
    ensures { OnOk result (IsPut at (V.Text bytes.now) tuple.old tuple.new) }
{
    if at < tuple.len() {
        return set_text(alloc, tuple.item_mut(at), bytes);
    }
    add(tuple, Value::Text(Items::from_slice(alloc, bytes)?))
}

/// Takes out what stands behind the first `count` values.
#[inline(always)]
pub(crate) fn shorten(tuple: &mut Values, count: usize)
    ensures { tuple.new ≡ take count tuple.old }
{
    if count < tuple.len() {
        tuple.truncate(count);
    }
}
