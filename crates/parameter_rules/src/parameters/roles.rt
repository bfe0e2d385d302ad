//! Which parameters an operator has, and which it needs.
ghost use Rattle.std.specs.Prelude.{◌≡◌, ◌∷◌, [], map};
ghost use Rattle.std.specs.List.{list_any};
ghost use Rattle.std.specs.Option.{option_copied};
ghost use Rattle.std.specs.Str.{bytes_eq};
ghost use Rattle.language_model.specs.Kinds.{is_had, is_needed, parameter_seen};
ghost use Rattle.language_model.specs.ParameterTyping.{missing, needed, role_of};
ghost use Rattle.language_model.specs.parts.ParameterTyping.{needed_among, role_among};

use language_model::{Given, ParameterRule, Presence, Role};
use operator_kinds::rules_of;
use spl_tree::OpKind;

fn is_had(partitioned: bool, presence: Presence) -> bool
    ensures { result ≡ is_had partitioned presence }
{
    match presence {
        Presence::Optional | Presence::Required => true,
        Presence::WithPartitions => partitioned,
    }
}

fn is_needed(partitioned: bool, presence: Presence) -> bool
    ensures { result ≡ is_needed partitioned presence }
{
    match presence {
        Presence::Optional => false,
        Presence::Required => true,
        Presence::WithPartitions => partitioned,
    }
}

/// What the values of the parameter of the name are, where the operator has one.
pub(super) fn role_of(kind: OpKind, partitioned: bool, name: &[u8]) -> Option<Role>
    ensures { result ≡ role_of kind partitioned name.now }
{
    role_among(rules_of(kind).parameters, partitioned, name)
}

fn role_among(parameters: &[ParameterRule], partitioned: bool, name: &[u8]) -> Option<Role>
    ensures { result ≡ role_among (map parameter_seen parameters.now) partitioned name.now }
{
    for parameter in parameters {
        if is_had(partitioned, parameter.presence) && parameter.name == name {
            return Some(parameter.role);
        }
    }
    None
}

/// The first parameter that the operator needs and that isn't given.
pub(super) fn missing(given: &[Given], kind: OpKind, partitioned: bool) -> Option<&'static [u8]>
    ensures { option_copied result ≡ missing given.now (needed kind partitioned) }
{
    missing_among(rules_of(kind).parameters, given, partitioned)
}

fn missing_among(
    parameters: &[ParameterRule],
    given: &[Given],
    partitioned: bool,
) -> Option<&'static [u8]>
    ensures { option_copied result ≡ missing given.now (needed_among (map parameter_seen parameters.now) partitioned) }
{
    for parameter in parameters {
        if is_needed(partitioned, parameter.presence) && !is_given(given, parameter.name) {
            return Some(parameter.name);
        }
    }
    None
}

/// Whether a parameter of the name is given.
pub(super) fn is_given(given: &[Given], name: &[u8]) -> bool
    ensures { result ≡ list_any (λ g. bytes_eq g.name name.now) given.now }
{
    for parameter in given {
        if parameter.name.as_slice() == name {
            return true;
        }
    }
    false
}
