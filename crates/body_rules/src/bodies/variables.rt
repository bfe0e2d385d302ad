//! Variables of scopes.
ghost use Rattle.std.specs.Prelude.{◌≡◌, IfOk, OnErr};
ghost use Rattle.language_model.specs.BodyFits.{with_variable};
ghost use Rattle.language_model.specs.BodyTyping.{variable};
ghost use Rattle.body_rules.specs.steps.Leads.{shortened};

use language_model::{Scope, Variable};
use spl_value::{Boxed, Items, Name, NoMemory, SplType};
use std::alloc::Global;

/// Adds a variable after those that there are.
pub(crate) fn add_variable(
    alloc: Global,
    scope: &mut Scope,
    mutable: bool,
    name: &Name,
    kind: Boxed<SplType>,
) -> Result<(), NoMemory>
    ensures ok { IfOk result (λ _. scope.new ≡ with_variable scope.old (variable mutable name.now kind)) }
    ensures err { OnErr result (scope.new ≡ scope.old) }
{
    let name = Items::from_slice(alloc, name.as_slice())?;
    scope.vars.push(Variable {
        name,
        kind: kind.into_inner(),
        mutable,
    })?;
    Ok(())
}

/// Takes off all variables but the first ones.
pub(crate) fn drop_variables(scope: &mut Scope, count: usize)
    ensures { scope.new ≡ shortened count scope.old }
{
    scope.vars.truncate(count);
}
