//! Calls on texts.
ghost use Rattle.std.specs.Prelude.{◌≡◌, ◌≤ℤ◌, pos, nat_abs, take, IsTrue};
ghost use Rattle.spl_value.specs.Values.{fits};
ghost use Rattle.spl_value.specs.Calls.{Exactly, Answers, length_of, substring_of};

use crate::integers::counted;
use spl_value::{Evaluated, FaultKind, IntKind, Items, SplType, Value};
use std::alloc::Global;

/// `length`: the number of bytes of a text, wrapped to an int32.
pub fn length(text: &Value) -> Evaluated
    requires { IsTrue (fits SplType.Text text.now) }
    ensures { Exactly result (length_of text.now) }
{
    let Value::Text(bytes) = text else {
        unreachable!()
    };
    Evaluated::Value(counted(bytes.len()))
}

/// `substring`: at most `count` bytes of `s` from `from` on, counted from 0. It is the fault
/// `Index` where `from` is negative or above the length, or `count` is negative.
pub fn substring(alloc: Global, s: &Value, from: &Value, count: &Value) -> Evaluated
    requires text { IsTrue (fits SplType.Text s.now) }
    requires from { IsTrue (fits (SplType.Int IntKind.I32) from.now) }
    requires count { IsTrue (fits (SplType.Int IntKind.I32) count.now) }
    ensures { Answers result (substring_of s.now from.now count.now) }
{
    let Value::Text(bytes) = s else {
        unreachable!()
    };
    let Value::Int(from) = from else {
        unreachable!()
    };
    let Value::Int(count) = count else {
        unreachable!()
    };
    let bytes = bytes.as_slice();
    if *from < 0 || *from > bytes.len() as i128 || *count < 0 {
        return Evaluated::Bad(FaultKind::Index);
    }
    match Items::from_slice(alloc, front(&bytes[*from as usize..], *count)) {
        Ok(part) => Evaluated::Value(Value::Text(part)),
        Err(_) => Evaluated::Memory,
    }
}

// The first `count` bytes, or all where there are fewer.
fn front(bytes: &[u8], count: i128) -> &[u8]
    requires { pos 0 ≤ℤ count }
    ensures { result.now ≡ take (nat_abs count) bytes.now }
{
    if count < bytes.len() as i128 {
        &bytes[..count as usize]
    } else {
        bytes
    }
}
