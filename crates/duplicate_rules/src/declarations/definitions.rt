//! Names that repeat an earlier one among the definitions of a unit.
ghost use Rattle.std.specs.Prelude.{◌≡◌, [], IfOk, is_some};
ghost use Rattle.std.specs.Option.{option_copied};
ghost use Rattle.language_model.specs.Declarations.{definition_name, first_of, is_built_in};
ghost use Rattle.language_model.specs.parts.Declarations.{repeated_definitions};
ghost use Rattle.language_model.specs.Typing.{call_of};
ghost use Rattle.duplicate_rules.specs.steps.NamesBefore.{Hold};

use super::names::{NamesBefore, Repeated};
use spl_tree::{CallName, Definition, Placed};
use spl_value::Name;
use std::alloc::Global;

fn name_of(definition: &Definition) -> &Placed<Name>
    ensures { result.now ≡ definition_name definition.now }
{
    match definition {
        Definition::Type(definition) => &definition.name,
        Definition::Function(definition) => &definition.name,
        Definition::Composite(definition) => &definition.name,
    }
}

/// Whether the language has a call of this name built in.
fn is_call_name(name: &[u8]) -> bool
    ensures { result ≡ is_some (call_of name.now) }
{
    name == b"length".as_slice()
        || name == b"size".as_slice()
        || name == b"has".as_slice()
        || name == b"appendM".as_slice()
        || name == b"removeM".as_slice()
        || name == b"clearM".as_slice()
        || name == b"abs".as_slice()
        || name == b"min".as_slice()
        || name == b"max".as_slice()
        || name == b"substring".as_slice()
        || name == b"currentPunct".as_slice()
}

/// Whether it is a function of such a name.
fn is_built_in(definition: &Definition) -> bool
    ensures { result ≡ is_built_in definition.now }
{
    match definition {
        Definition::Function(function) => is_call_name(function.name.what.as_slice()),
        Definition::Type(_) | Definition::Composite(_) => false,
    }
}

/// The first definition's name that an earlier definition has, or for a function a built-in call.
pub(super) fn repeated_definition<'u>(alloc: Global, unit: &'u [Definition]) -> Repeated<'u>
    ensures { IfOk result (λ found. option_copied found ≡ first_of (repeated_definitions unit.now)) }
{
    let mut before = NamesBefore::new(alloc);
    first_behind(&mut before, unit)
}

/// The same, where no name comes before these.
fn first_behind<'u>(before: &mut NamesBefore<'u>, unit: &'u [Definition]) -> Repeated<'u>
    requires { Hold before.old [] }
    ensures { IfOk result (λ found. option_copied found ≡ first_of (repeated_definitions unit.now)) }
{
    for definition in unit {
        let name = name_of(definition);
        let added = before.add(name)?;
        if is_built_in(definition) || !added {
            return Ok(Some(name));
        }
    }
    Ok(None)
}
