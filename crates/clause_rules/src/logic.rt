//! The logic of a Custom.
ghost use Rattle.std.specs.Prelude.{◌≡◌, [], false, IfOk};
ghost use Rattle.std.specs.Option.{option_copied};
ghost use Rattle.language_model.specs.LogicTyping.{logic_typing};
ghost use Rattle.language_model.specs.Finds.{Finds};
ghost use Rattle.clause_rules.specs.steps.Logic.{handlers_found, surroundings};

use body_rules::{BodyPurpose, BodySetting, handlers_of};
use language_model::{Handlers, Port, Scope, StateVariable, TypeAnswer};
use logic_rules::{by_ports, state_in, variables_of};
use spl_tree::{Handler, Logic, Placed};
use spl_value::Items;
use std::alloc::Global;
use std::mem::replace;
use written_types::TypeScope;

/// The handlers of a Custom with a state. The scope is that of `logic_of`.
fn with_state(
    alloc: Global,
    types: &TypeScope,
    scope: &mut Scope,
    outputs: &[Port],
    state: Items<StateVariable>,
    handlers: &[Placed<Handler>],
) -> Result<Handlers, TypeAnswer>
    requires no_variables { scope.old.vars ≡ [] }
    requires no_marker { scope.old.punct ≡ false }
    ensures code { Finds (handlers_found (surroundings types.now scope.old outputs.now) handlers.now state) result }
    ensures same_scope { IfOk result (λ _. scope.new ≡ scope.old) }
{
    let count = scope.ports.len();
    let mut ports = replace(&mut scope.ports, Items::new(alloc));
    scope.vars = variables_of(alloc, state.as_slice())?;
    let setting = BodySetting {
        types: *types,
        purpose: BodyPurpose::Handler(outputs),
    };
    let handled = handlers_of(alloc, &setting, scope, &mut ports, handlers)?;
    scope.vars = Items::new(alloc);
    scope.ports = ports;
    Ok(by_ports(alloc, count, state, handled)?)
}

/// What a Custom does: its state and its handlers. The scope has the functions of the unit, the `$`
/// parameters of the body in which it stands, and its input ports, but no variables and no marker;
/// `outputs` are its output ports. Without logic it does nothing. The scope is as before where the
/// answer is `Ok`, and is left in any state otherwise.
///
/// Where the logic is refused, the answer is `Refused`, with the first refusal: those of the state in
/// the order of the text come before those of the handlers. A variable is refused as its type is, or
/// `LeftOut` at a value that isn't made of literals, or as its value is under that type. A handler is
/// refused `Unknown` where no input port has its name, or `ExtraParameter` where its event has a
/// handler on that port before, or as its body is. `Memory` is as that of `type_of`.
#[tactic(auto, using(crate::proofs::LogicFound::logic_goes, crate::proofs::LogicFound::logic_stops))]
pub(crate) fn logic_of(
    alloc: Global,
    types: &TypeScope,
    scope: &mut Scope,
    outputs: &[Port],
    logic: Option<&Placed<Logic>>,
) -> Result<Handlers, TypeAnswer>
    requires no_variables { scope.old.vars ≡ [] }
    requires no_marker { scope.old.punct ≡ false }
    ensures logic { Finds (logic_typing (surroundings types.now scope.old outputs.now) (option_copied logic.entry)) result }
    ensures same_scope { IfOk result (λ _. scope.new ≡ scope.old) }
{
    let Some(logic) = logic else {
        let count = scope.ports.len();
        return Ok(by_ports(alloc, count, Items::new(alloc), Items::new(alloc))?);
    };
    let Logic { state, handlers } = &logic.what;
    let state = state_in(alloc, types, scope, state.as_slice())?;
    with_state(alloc, types, scope, outputs, state, handlers.as_slice())
}
