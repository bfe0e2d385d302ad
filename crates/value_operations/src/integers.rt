//! Operators of integers.
ghost use Rattle.std.specs.Prelude.{◌≡◌, ◌≢◌, ◌≤◌, ◌^◌, IsTrue, MatchResult, pos, unsigned_abs, int_div, int_rem};
ghost use Rattle.spl_value.specs.declared.item.FaultKind.TheVariants.{DivZero};
ghost use Rattle.spl_value.specs.Values.{kind_holds};
ghost use Rattle.language_model.specs.Operators.{on_integers};
ghost use Rattle.value_operations.specs.declared.stop.Stop.TheVariants.{Fault};
ghost use Rattle.value_operations.specs.Answers.{Settles};

use crate::stop::Stop;
use spl_tree::IntegerOperator;
use spl_value::{FaultKind, IntKind, Value, wrap};

/// The result of an operator of two integers of a type, wrapped in the type, or a division
/// by zero.
pub(crate) fn on_integers(
    operator: IntegerOperator,
    kind: IntKind,
    left: i128,
    right: i128,
) -> Result<Value, Stop>
    requires left_in { IsTrue (kind_holds kind left) }
    requires right_in { IsTrue (kind_holds kind right) }
    ensures { Settles (on_integers operator kind left right) result }
{
    let exact = match operator {
        IntegerOperator::Multiply => left.wrapping_mul(right),
        IntegerOperator::Divide => quotient(left, right)?,
        IntegerOperator::Remainder => remainder(left, right)?,
        IntegerOperator::Add => left + right,
        IntegerOperator::Subtract => left - right,
        IntegerOperator::BitAnd => left & right,
        IntegerOperator::BitXor => left ^ right,
        IntegerOperator::BitOr => left | right,
    };
    Ok(Value::Int(wrap(kind, exact)))
}

/// The quotient of two integers within 64 bits, cut off toward zero, or a division by zero.
fn quotient(left: i128, right: i128) -> Result<i128, Stop>
    requires { unsigned_abs left ≤ 2 ^ 64 }
    ensures { MatchResult result (λ n. (right ≢ pos 0) × (n ≡ int_div left right))
        (λ stop. (right ≡ pos 0) × (stop ≡ Fault DivZero)) }
{
    if right == 0 {
        return Err(Stop::Fault(FaultKind::DivZero));
    }
    Ok(left / right)
}

/// The remainder of two integers within 64 bits, with the sign of the first, or a division by zero.
fn remainder(left: i128, right: i128) -> Result<i128, Stop>
    requires { unsigned_abs left ≤ 2 ^ 64 }
    ensures { MatchResult result (λ n. (right ≢ pos 0) × (n ≡ int_rem left right))
        (λ stop. (right ≡ pos 0) × (stop ≡ Fault DivZero)) }
{
    if right == 0 {
        return Err(Stop::Fault(FaultKind::DivZero));
    }
    Ok(left % right)
}
