//! What has a name: look-ups by name in scopes and attributes.
ghost use Rattle.std.specs.Prelude.{◌≡◌};
ghost use Rattle.std.specs.Option.{option_copied};
ghost use Rattle.std.specs.Str.{bytes_eq};
ghost use Rattle.language_model.specs.Finds.{Points};
ghost use Rattle.language_model.specs.Scopes.{attribute_of, dollar_of, first_from, function_of, unresolved_of, variable_of};

use crate::scope::{CheckRefusal, Dollar, Port, Scope, Signature, Typed, Variable};
use spl_value::{Attribute, Name};

/// The last variable of the name, with its place.
pub fn variable_named<'s>(scope: &'s Scope, name: &[u8]) -> Option<(usize, &'s Variable)>
    ensures { Points (variable_of scope.now name.now) result }
{
    let variables = scope.vars.as_slice();
    let mut at = variables.len();
    'variables: while at > 0 {
        at -= 1;
        let variable = &variables[at];
        if variable.name.as_slice() == name {
            return Some((at, variable));
        }
    }
    None
}

/// The attribute of the name, with its place.
pub fn attribute_named<'s>(schema: &'s [Attribute], name: &[u8]) -> Option<(usize, &'s Attribute)>
    ensures { Points (attribute_of schema.now name.now) result }
{
    for (at, attribute) in schema.iter().enumerate() {
        if attribute.name.as_slice() == name {
            return Some((at, attribute));
        }
    }
    None
}

/// The first port of the name, with its place.
pub fn port_named<'s>(ports: &'s [Port], name: &[u8]) -> Option<(usize, &'s Port)>
    ensures { Points (first_from (λ p. bytes_eq p.name name.now) 0 ports.now) result }
{
    for (at, port) in ports.iter().enumerate() {
        if port.name.as_slice() == name {
            return Some((at, port));
        }
    }
    None
}

/// The function of the name, with its place.
pub fn function_named<'s>(scope: &'s Scope, name: &Name) -> Option<(usize, &'s Signature)>
    ensures { Points (function_of scope.now name.now) result }
{
    scope.functions.named(name)
}

/// The refusal of the types of the function of the name, which isn't among the scope's own.
pub fn unresolved_named<'s>(scope: &'s Scope, name: &[u8]) -> Option<&'s CheckRefusal>
    ensures { option_copied result ≡ unresolved_of scope.now name.now }
{
    for (at, function) in scope.unresolved.as_slice().iter().enumerate() {
        if function.name.as_slice() == name {
            return Some(&function.refusal);
        }
    }
    None
}

/// What the `$` parameter of the name is.
pub fn dollar_named<'s>(
    dollars: &'s [Dollar],
    name: &[u8],
) -> Option<&'s Result<Typed, CheckRefusal>>
    ensures { option_copied result ≡ dollar_of dollars.now name.now }
{
    for (at, dollar) in dollars.iter().enumerate() {
        if dollar.name.as_slice() == name {
            return Some(&dollar.found);
        }
    }
    None
}
