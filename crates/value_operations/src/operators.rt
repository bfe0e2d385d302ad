//! Operators on values.
ghost use Rattle.std.specs.Prelude.{◌≡◌, ℕ, IsTrue, Ok};
ghost use Rattle.std.specs.Fmt.{signed_decimal};
ghost use Rattle.spl_tree.specs.declared.code.BinaryCode.TheVariants as D;
ghost use Rattle.spl_tree.specs.declared.code.UnaryCode.TheVariants as U;
ghost use Rattle.spl_value.specs.declared.types.IntKind.{IntKind};
ghost use Rattle.spl_value.specs.declared.types.SplType.TheVariants as T;
ghost use Rattle.spl_value.specs.declared.value.Value.TheVariants as V;
ghost use Rattle.spl_value.specs.declared.value.Value.{Value};
ghost use Rattle.spl_value.specs.Calls.{Gives};
ghost use Rattle.spl_value.specs.Values.{fits};
ghost use Rattle.language_model.specs.Operators.{binary_of, in_order};
ghost use Rattle.language_model.specs.parts.Operators.{unary_of, boolean, bool_text};
ghost use Rattle.language_model.specs.Evaluation.{unaries_of};
ghost use Rattle.language_model.specs.Outcomes.{Outcome, followed, settled};
ghost use Rattle.value_operations.specs.declared.held.Held.{Held};
ghost use Rattle.value_operations.specs.Answers.{Settles, SettlesHeld, AnswersHeld, held};
ghost use Rattle.value_operations.specs.Fitting.{FitBinary, FitRelation, FitsUnaries};
ghost use Rattle.value_operations.specs.steps.Unaries.{FitsUnary};

use crate::held::{Held, owned, stopped};
use crate::integers::on_integers;
use crate::slots::truth_of;
use crate::stop::Stop;
use spl_tree::{BinaryCode, OrderOperator, UnaryCode};
use spl_value::{Items, Value, add_integer, order, same, wrap};
use std::alloc::Global;
use std::cmp::Ordering;

/// Whether values in this order are in the order that the operator asks for.
fn in_order(operator: OrderOperator, ordering: Ordering) -> bool
    ensures { result ≡ in_order operator ordering }
{
    match operator {
        OrderOperator::Less => ordering.is_lt(),
        OrderOperator::LessOrEqual => ordering.is_le(),
        OrderOperator::Greater => ordering.is_gt(),
        OrderOperator::GreaterOrEqual => ordering.is_ge(),
    }
}

/// The result of an operator of two values that evaluates both.
fn binary_of(
    alloc: Global,
    operator: BinaryCode,
    left: &Value,
    right: &Value,
) -> Result<Value, Stop>
    requires { FitBinary operator left.now right.now }
    ensures { Settles (binary_of operator left.now right.now) result }
{
    match operator {
        BinaryCode::Integers(operator, kind) => {
            on_integers(operator, kind, number_in(left), number_in(right))
        }
        BinaryCode::Join => join(alloc, left, right),
        _ => Ok(Value::Bool(are_related(operator, left, right))),
    }
}

/// Whether two values are in the relation that an operator asks for.
pub fn are_related(operator: BinaryCode, left: &Value, right: &Value) -> bool
    requires { FitRelation operator left.now right.now }
    ensures { binary_of operator left.now right.now ≡ boolean result }
{
    match operator {
        BinaryCode::Order(operator) => in_order(operator, order(left, right)),
        BinaryCode::Equal => same(left, right),
        BinaryCode::NotEqual => !same(left, right),
        BinaryCode::InList => is_in(left, right),
        BinaryCode::InMap => has_key(right, left),
        BinaryCode::Integers(_, _) | BinaryCode::Join | BinaryCode::And | BinaryCode::Or => {
            unreachable!()
        }
    }
}

/// Two texts, joined.
fn join(alloc: Global, left: &Value, right: &Value) -> Result<Value, Stop>
    requires { FitBinary D.Join left.now right.now }
    ensures { Settles (binary_of D.Join left.now right.now) result }
{
    let Value::Text(left) = left else {
        unreachable!()
    };
    let Value::Text(right) = right else {
        unreachable!()
    };
    let mut text = Items::from_slice(alloc, left.as_slice())?;
    text.append(Items::from_slice(alloc, right.as_slice())?)?;
    Ok(Value::Text(text))
}

/// Whether the value is in the list.
fn is_in(value: &Value, list: &Value) -> bool
    requires { FitBinary D.InList value.now list.now }
    ensures { binary_of D.InList value.now list.now ≡ boolean result }
{
    let Value::List(values) = list else {
        unreachable!()
    };
    'elements: for element in values.as_slice() {
        if same(value, element) {
            return true;
        }
    }
    false
}

/// Whether the map has the key.
fn has_key(map: &Value, key: &Value) -> bool
    requires { FitBinary D.InMap key.now map.now }
    ensures { binary_of D.InMap key.now map.now ≡ boolean result }
{
    let Value::Map(pairs) = map else {
        unreachable!()
    };
    pairs.contains_key(key)
}

/// The result of an operator or a cast in front of a value.
fn unary_of(alloc: Global, operator: UnaryCode, value: &Value) -> Result<Value, Stop>
    requires { FitsUnary operator value.now }
    ensures { Settles (unary_of operator value.now) result }
{
    let exact = match operator {
        UnaryCode::Not => return Ok(Value::Bool(!truth_of(value))),
        UnaryCode::Negate(kind) => wrap(kind, -number_in(value)),
        UnaryCode::Complement(kind) => wrap(kind, -1 - number_in(value)),
        UnaryCode::ToInteger(kind) => wrap(kind, number_in(value)),
        UnaryCode::ToText => return to_text(alloc, value),
    };
    Ok(Value::Int(exact))
}

/// The number of an integer.
fn number_in(value: &Value) -> i128
    requires { (kind : IntKind) × IsTrue (fits (T.Int kind) value.now) }
    ensures { value.now ≡ V.Int result }
{
    match value {
        Value::Int(n) => *n,
        _ => unreachable!(),
    }
}

/// The text of an integer or a boolean.
fn to_text(alloc: Global, value: &Value) -> Result<Value, Stop>
    requires { FitsUnary U.ToText value.now }
    ensures { Settles (unary_of U.ToText value.now) result }
{
    match value {
        Value::Int(n) => number_text(alloc, *n),
        Value::Bool(b) => bool_text(alloc, *b),
        _ => unreachable!(),
    }
}

/// An integer's decimal digits, with `-` in front where it is below 0.
fn number_text(alloc: Global, n: i128) -> Result<Value, Stop>
    ensures { Settles (Gives (V.Text (signed_decimal n))) result }
{
    let mut text = Vec::new(alloc);
    add_integer(&mut text, n)?;
    Ok(Value::Text(Items::from_vec(text)))
}

fn bool_text(alloc: Global, b: bool) -> Result<Value, Stop>
    ensures { Settles (Gives (V.Text (bool_text b))) result }
{
    let text = if b { "true" } else { "false" };
    Ok(Value::Text(Items::from_slice(alloc, text.as_bytes())?))
}

/// Operators and casts in front of a value, the outermost first.
pub fn unaries_of<'e>(
    alloc: Global,
    operators: &[UnaryCode],
    operand: Held<'e>,
) -> Result<Held<'e>, Stop>
    requires { FitsUnaries operators.now (held operand) }
    ensures { (turns : ℕ) → AnswersHeld (unaries_of operators.now (held operand.entry) turns) result turns }
{
    let mut value = operand;
    let mut at = operators.len();
    'operators: while at > 0 {
        at -= 1;
        value = applied(alloc, operators[at], value)?;
    }
    Ok(value)
}

/// The result of an operator or a cast in front of a value that is held.
fn applied<'e>(alloc: Global, operator: UnaryCode, value: Held<'e>) -> Result<Held<'e>, Stop>
    requires { FitsUnary operator (held value) }
    ensures { SettlesHeld (unary_of operator (held value.entry)) result }
{
    owned(unary_of(alloc, operator, value.value()))
}

/// The result of an operator, where its right operand gave a value.
pub fn operator_with<'e>(
    alloc: Global,
    operator: BinaryCode,
    left: Held<'e>,
    right: Result<Held<'e>, Stop>,
) -> Result<Held<'e>, Stop>
    requires { (h : Held) → right ≡ Ok h → FitBinary operator (held left) (held h) }
    ensures { (outcome : Outcome Value) (turns : ℕ) → AnswersHeld outcome right.entry turns
        → AnswersHeld (followed outcome (λ v after. settled (binary_of operator (held left.entry) v) after)) result turns }
{
    match right {
        Ok(right) => owned(right_operand(alloc, operator, left, right)),
        Err(stop) => owned(stopped(left, stop)),
    }
}

fn right_operand(
    alloc: Global,
    operator: BinaryCode,
    left: Held<'_>,
    right: Held<'_>,
) -> Result<Value, Stop>
    requires { FitBinary operator (held left) (held right) }
    ensures { Settles (binary_of operator (held left.entry) (held right.entry)) result }
{
    binary_of(alloc, operator, left.value(), right.value())
}
