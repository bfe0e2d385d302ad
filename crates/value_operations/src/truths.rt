//! Truths of what is evaluated, with no value made.
ghost use Rattle.std.specs.Prelude.{◌≡◌, ℕ, Bool, List, Ok};
ghost use Rattle.spl_value.specs.declared.value.Value.{Value};
ghost use Rattle.language_model.specs.Operators.{binary_of};
ghost use Rattle.language_model.specs.parts.Operators.{boolean};
ghost use Rattle.language_model.specs.Outcomes.{Outcome, followed, settled};
ghost use Rattle.value_operations.specs.declared.held.Held.{Held};
ghost use Rattle.value_operations.specs.Answers.{Answers, AnswersHeld, IsMadeAs, IsSo, as_truth, held};
ghost use Rattle.value_operations.specs.Fitting.{FitRelation};

use crate::answers::{Made, Truth};
use crate::held::Held;
use crate::operators::are_related;
use crate::stop::Stop;
use spl_tree::BinaryCode;
use spl_value::{Value, Values};

/// Whether a relation holds, where its right operand gave a value.
pub fn related_with(
    operator: BinaryCode,
    left: Held<'_>,
    right: Result<Held<'_>, Stop>,
) -> Result<bool, Stop>
    requires { (h : Held) → right ≡ Ok h → FitRelation operator (held left) (held h) }
    ensures { (outcome : Outcome Value) (turns : ℕ) → AnswersHeld outcome right.entry turns
        → Answers (as_truth (followed outcome (λ v after. settled (binary_of operator (held left.entry) v) after))) result turns }
{
    match right {
        Ok(right) => Ok(right_related(operator, left.value(), right)),
        Err(stop) => Err(stop),
    }
}

fn right_related(operator: BinaryCode, left: &Value, right: Held<'_>) -> bool
    requires { FitRelation operator left.now (held right) }
    ensures { binary_of operator left.now (held right.entry) ≡ boolean result }
{
    are_related(operator, left, right.value())
}

/// What an evaluation of a condition answers.
pub fn truth(answer: Result<bool, Stop>) -> Truth
    ensures { (outcome : Outcome Bool) (turns : ℕ) → Answers outcome answer turns → IsSo outcome result turns }
{
    match answer {
        Ok(truth) => Truth::Is(truth),
        Err(Stop::Fault(kind)) => Truth::Bad(kind),
        Err(Stop::Memory) => Truth::Memory,
    }
}

/// What an evaluation of a tuple answers.
pub fn made(answer: Result<Values, Stop>) -> Made
    ensures { (outcome : Outcome (List Value)) (turns : ℕ) → Answers outcome answer turns → IsMadeAs outcome result turns }
{
    match answer {
        Ok(values) => Made::Tuple(values),
        Err(Stop::Fault(kind)) => Made::Bad(kind),
        Err(Stop::Memory) => Made::Memory,
    }
}
