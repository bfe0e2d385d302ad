//! Equality and order of values.
ghost use Rattle.std.specs.Prelude.{◌≡◌, ◌↔◌, IsTrue};
ghost use Rattle.std.specs.Cmp.Lexicographic.{slice_cmp};
ghost use Rattle.std.specs.Ordering.{nat_cmp, ordering_reverse};
ghost use Rattle.spl_value.specs.Order.{value_cmp};

use crate::Value;
use std::cmp::Ordering;

/// Whether two values are the same.
pub fn same(a: &Value, b: &Value) -> bool
    ensures { IsTrue result ↔ (a.now ≡ b.now) }
{
    a == b
}

/// The order of two texts: that of the first bytes that differ, or else of their lengths.
fn order_bytes(a: &[u8], b: &[u8]) -> Ordering
    ensures { result ≡ slice_cmp nat_cmp a.now b.now }
{
    let (mut left, mut right) = (a, b);
    'bytes: while let [first, others @ ..] = left {
        let [second, rest @ ..] = right else {
            return Ordering::Greater;
        };
        if first != second {
            return first.cmp(second);
        }
        left = others;
        right = rest;
    }
    if right.is_empty() {
        Ordering::Equal
    } else {
        Ordering::Less
    }
}

/// The order of two values: integers by number, false before true, texts by bytes, lists, maps and
/// tuples in dictionary order, and values of different variants in the order of the enum.
pub fn order(a: &Value, b: &Value) -> Ordering
    ensures { result ≡ value_cmp a.now b.now }
{
    match (a, b) {
        (Value::Text(a), Value::Text(b)) => order_bytes(a.as_slice(), b.as_slice()),
        _ => a.cmp(b),
    }
}

/// The order of values is total, and two values are equal in it exactly where they are the same.
pub fn order_law()
    ensures reflexive { (v : Value) → value_cmp v v ≡ Ordering.Equal }
    ensures turned { (v w : Value) → value_cmp w v ≡ ordering_reverse (value_cmp v w) }
    ensures transitive { (u v w : Value) → value_cmp u v ≡ Ordering.Less
        → value_cmp v w ≡ Ordering.Less → value_cmp u w ≡ Ordering.Less }
    ensures equal { (v w : Value) → (value_cmp v w ≡ Ordering.Equal) ↔ (v ≡ w) }
{}
