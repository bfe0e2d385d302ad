//! The variables of the state of a Custom.
ghost use Rattle.std.specs.Prelude.{◌≡◌, IfOk, map};
ghost use Rattle.std.specs.Option.{option_copied};
ghost use Rattle.language_model.specs.LogicTyping.{state_value, state_variable};
ghost use Rattle.language_model.specs.parts.LogicTyping.{state_typing};
ghost use Rattle.language_model.specs.Parameters.{constant_scope};
ghost use Rattle.written_types.specs.TypeScopes.{types_in};
ghost use Rattle.language_model.specs.Finds.{Finds};

use crate::refusals::left_out;
use crate::state_values::is_state_value;
use language_model::{Dollar, Scope, Signatures, StateVariable, TypeAnswer, Typed, Variable};
use spl_tree::{Code, Declaration, Expr, Slot};
use spl_value::{Items, NoMemory, SplType, copy_type, default_of};
use std::alloc::Global;
use std::mem::replace;
use type_rules::type_of;
use written_types::{TypeScope, type_of_written};

/// Where these `$` parameters alone can be named.
fn constant_scope(alloc: Global, dollars: Items<Dollar>) -> Scope
    ensures { result ≡ constant_scope dollars }
{
    Scope {
        vars: Items::new(alloc),
        ports: Items::new(alloc),
        functions: Signatures::new(alloc),
        unresolved: Items::new(alloc),
        dollars,
        punct: false,
    }
}

fn code_of(typed: Typed) -> Code<Slot>
    ensures { result ≡ typed.code }
{
    let Typed { kind: _, code } = typed;
    code.into_inner()
}

/// The first value of a variable of a type: its type's default where it is given none.
fn state_value(
    alloc: Global,
    scope: &Scope,
    kind: &SplType,
    value: Option<&Expr>,
) -> Result<Code<Slot>, TypeAnswer>
    requires { scope.now ≡ constant_scope scope.now.dollars }
    ensures { Finds (state_value scope.now.dollars kind.now (option_copied value.entry)) result }
{
    match value {
        None => Ok(Code::Literal(default_of(alloc, kind)?)),
        Some(value) => {
            if !is_state_value(scope.dollars.as_slice(), value) {
                return left_out(alloc, value.at);
            }
            Ok(code_of(type_of(alloc, scope, value, Some(kind))?))
        }
    }
}

fn state_variable(
    alloc: Global,
    types: &TypeScope,
    scope: &Scope,
    declaration: &Declaration,
) -> Result<StateVariable, TypeAnswer>
    requires { scope.now ≡ constant_scope scope.now.dollars }
    ensures { Finds (state_variable (types_in types.now) scope.now.dollars declaration.now) result }
{
    let name = Items::from_slice(alloc, declaration.name.what.as_slice())?;
    let kind = type_of_written(alloc, types, &declaration.kind)?;
    let first = state_value(alloc, scope, &kind, declaration.value.as_ref())?;
    let variable = Variable {
        name,
        kind,
        mutable: declaration.mutable,
    };
    Ok(StateVariable { variable, first })
}

/// The variables of a state, in a scope of `$` parameters alone.
fn state_of(
    alloc: Global,
    types: &TypeScope,
    scope: &Scope,
    declarations: &[Declaration],
) -> Result<Items<StateVariable>, TypeAnswer>
    requires { scope.now ≡ constant_scope scope.now.dollars }
    ensures { Finds (state_typing (types_in types.now) scope.now.dollars declarations.now) result }
{
    let mut state = Items::new(alloc);
    for declaration in declarations {
        let variable = state_variable(alloc, types, scope, declaration)?;
        state.push(variable)?;
    }
    Ok(state)
}

/// The variables of a state of a Custom that stands in a scope. Of that their values see the `$`
/// parameters alone. Whatever the answer, the scope is as before after it.
pub fn state_in(
    alloc: Global,
    types: &TypeScope,
    scope: &mut Scope,
    declarations: &[Declaration],
) -> Result<Items<StateVariable>, TypeAnswer>
    ensures code { Finds (state_typing (types_in types.now) scope.old.dollars declarations.now) result }
    ensures same_scope { scope.new ≡ scope.old }
{
    let dollars = replace(&mut scope.dollars, Items::new(alloc));
    let constants = constant_scope(alloc, dollars);
    let state = state_of(alloc, types, &constants, declarations);
    scope.dollars = constants.into_dollars();
    state
}

/// The variables without their first values.
pub fn variables_of(alloc: Global, state: &[StateVariable]) -> Result<Items<Variable>, NoMemory>
    ensures { IfOk result (λ variables. variables ≡ map (λ x. x.variable) state.now) }
{
    let mut variables = Items::new(alloc);
    for StateVariable { variable, first: _ } in state {
        let name = Items::from_slice(alloc, variable.name.as_slice())?;
        let kind = copy_type(alloc, &variable.kind)?;
        variables.push(Variable {
            name,
            kind,
            mutable: variable.mutable,
        })?;
    }
    Ok(variables)
}
