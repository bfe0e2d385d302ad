//! The `$` parameters that stand in expressions.
ghost use Rattle.std.specs.Prelude.{◌≡◌, IfOk};
ghost use Rattle.language_model.specs.DollarLaws.{dollars_in};
ghost use Rattle.dollar_rules.specs.steps.Mentioned.{names_seen};

use program_tables::{Mention, of_expression};
use spl_tree::Expr;
use spl_value::{Name, NoMemory};
use std::alloc::Global;

/// The names of the parameters that stand in an expression, in the order of the text.
pub(crate) fn dollars_in(alloc: Global, expr: &Expr) -> Result<Vec<&Name>, NoMemory>
    ensures { IfOk result (λ names. names_seen names.items ≡ dollars_in expr.now) }
{
    let mentions = of_expression(alloc, expr)?;
    let mut names = Vec::new(alloc);
    for mention in mentions.as_slice() {
        if let Mention::Dollar(name) = mention.what {
            names.push(name)?;
        }
    }
    Ok(names)
}
