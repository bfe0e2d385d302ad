//! Integers that wrap in their kind.
ghost use Rattle.std.specs.Prelude.{◌≡◌, IsTrue};
ghost use Rattle.spl_value.specs.Values.{fits};
ghost use Rattle.spl_value.specs.Calls.{Exactly, abs_of, count_value};

use spl_value::{Evaluated, IntKind, SplType, Value, wrap};

/// `abs`: how far a number of the kind is from 0, wrapped in the kind: the least number gives
/// itself.
pub fn abs(n: &Value, kind: IntKind) -> Evaluated
    requires { IsTrue (fits (SplType.Int kind) n.now) }
    ensures { Exactly result (abs_of kind n.now) }
{
    let Value::Int(n) = n else { unreachable!() };
    Evaluated::Value(Value::Int(wrap(kind, n.abs())))
}

// A number of bytes or elements, cast to int32.
pub fn counted(n: usize) -> Value
    ensures { result ≡ count_value n }
{
    Value::Int(wrap(IntKind::I32, n as i128))
}
