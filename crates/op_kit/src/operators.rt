//! The operators of a checked graph.
ghost use Rattle.std.specs.Prelude.{◌≡◌, ◌<◌, IfOk, length};
ghost use Rattle.stream_model.specs.CheckedMeaning.{graph_of};
ghost use Rattle.stream_model.specs.Meaning.{Graph};
ghost use Rattle.list_engine.specs.Runs.{AreOperators};
ghost use Rattle.op_kit.specs.steps.Fresh.{IsFresh};

use crate::operator::Operator;
use language_model::{Checked, CheckedClauses};
use spl_value::{Items, NoMemory};
use std::alloc::Global;
use stream_model::React;

/// The operator with this number, before anything came; `None` for a source.
fn operator_at<'c>(
    alloc: Global,
    checked: &'c Checked,
    number: u32,
) -> Result<Option<Operator<'c>>, NoMemory>
    requires there { number < length checked.now.graph.ops }
    ensures { IfOk result (λ operator. IsFresh ⟦<Operator<'c> as React>⟧.spec ⟦<Operator<'c> as React>⟧.stands checked.now number operator) }
{
    let Some(part) = checked.parts.get(number as usize) else {
        unreachable!()
    };
    if let CheckedClauses::FileSource { .. } = part {
        return Ok(None);
    }
    let operator = Operator::new(alloc, checked, number)?;
    Ok(Some(operator))
}

/// The operators of a graph that is run, each before anything came; `None` for a source.
pub(crate) fn operators_of<'c>(
    alloc: Global,
    checked: &'c Checked,
) -> Result<Items<Option<Operator<'c>>>, NoMemory>
    ensures { IfOk result (λ operators. (g : Graph) → graph_of checked.now ≡ g
        → AreOperators ⟦<Operator<'c> as React>⟧.spec ⟦<Operator<'c> as React>⟧.stands g operators) }
{
    let mut operators = Items::new(alloc);
    'operators: for number in 0..checked.graph.ops.len() {
        let operator = operator_at(alloc, checked, number as u32)?;
        operators.push(operator)?;
    }
    Ok(operators)
}
