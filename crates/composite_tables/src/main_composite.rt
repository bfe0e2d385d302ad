//! Which composite of a unit is the main one.
ghost use Rattle.std.specs.Prelude.{◌≡◌, ◌<◌, drop, is_some, IfSome, None};
ghost use Rattle.std.specs.List.{list_all};
ghost use Rattle.std.specs.Option.{option_map, option_map_or};
ghost use Rattle.language_model.specs.Composites.{composites as composites_of, has_no_ports, if_main, main_of};
ghost use Rattle.language_model.specs.parts.Composites.{may_be_main};
ghost use Rattle.language_model.specs.Scopes.{at_place, first_from};

use crate::tables::{Composites, Scope};
use spl_tree::{Composite, CompositeParameter};

fn has_no_ports(composite: &Composite) -> bool
    ensures { result ≡ has_no_ports composite.now }
{
    composite.outputs.is_empty() && composite.inputs.is_empty()
}

fn have_defaults(parameters: &[CompositeParameter]) -> bool
    ensures { result ≡ list_all (λ p. is_some p.default) parameters.now }
{
    parameters
        .iter()
        .all(|parameter| parameter.default.is_some())
}

fn may_be_main(composite: &Composite) -> bool
    ensures { result ≡ may_be_main composite.now }
{
    has_no_ports(composite) && have_defaults(composite.parameters.as_slice())
}

/// The composite's place, if it may be the main one.
fn if_main(place: u32, composite: &Composite) -> Option<u32>
    ensures { result ≡ if_main (at_place place composite.now) }
{
    if may_be_main(composite) {
        Some(place)
    } else {
        None
    }
}

/// The first composite without ports from a place on.
fn portless_from<'c, 'u>(composites: &'c Composites<'u>, from: u32) -> Option<(u32, &'c Scope<'u>)>
    ensures first { option_map (λ p. at_place p.0 p.1.now.composite.now) result ≡ first_from has_no_ports from (drop from (composites_of composites.now.unit.now)) }
    ensures within { IfSome result (λ p. p.0 < u32.MAX) }
{
    for place in from..composites.count() {
        let scope = composites.scope_at(place)?;
        if has_no_ports(scope.composite) {
            return Some((place, scope));
        }
    }
    None
}

/// The place of the main composite: the one named `Main`, or else the only one without ports.
pub fn main_of(composites: &Composites<'_>) -> Option<u32>
    ensures { result ≡ main_of composites.now.unit.now }
{
    if let Some((place, scope)) = composites.named(b"Main".as_slice()) {
        return if_main(place, scope.composite);
    }
    let (place, scope) = portless_from(composites, 0)?;
    match portless_from(composites, place + 1) {
        Some(_) => None,
        None => if_main(place, scope.composite),
    }
}
