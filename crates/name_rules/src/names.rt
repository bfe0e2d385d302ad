//! What the names of an expression mean.
ghost use Rattle.std.specs.Prelude.{◌≤◌, length, Ok};
ghost use Rattle.language_model.specs.Scopes.{dollar_of, meant};
ghost use Rattle.spl_tree.specs.declared.code.Code.TheVariants as C;
ghost use Rattle.spl_tree.specs.declared.code.Slot.TheVariants as L;
ghost use Rattle.spl_value.specs.declared.types.SplType.TheVariants as S;
ghost use Rattle.language_model.specs.Typing.{meant_typed, typed};
ghost use Rattle.language_model.specs.parts.Typing.{dollar_typed};
ghost use Rattle.language_model.specs.Finds.{Finds};
ghost use Rattle.name_rules.specs.steps.Names.{Holds, Means};

use crate::copying::{copy_refusal, copy_typed};
use code_copies::boxed_copy;
use language_model::{
    Port, Scope, TypeAnswer, Typed, Variable, attribute_named, dollar_named, narrow, port_named,
    unknown, variable_named,
};
use spl_tree::{Code, Slot};
use spl_value::{Attribute, Boxed, SplType, copy_schema};
use std::alloc::Global;

/// The first port from a place on that has an attribute of the name: the places of both, and the
/// attribute.
fn holder<'s>(ports: &'s [Port], from: usize, name: &[u8]) -> Option<(usize, usize, &'s Attribute)>
    requires { from ≤ length ports.now }
    ensures { Holds ports.now from name.now result }
{
    let mut at = from;
    'ports: while at < ports.len() {
        if let Some((place, found)) = attribute_named(ports[at].schema.as_slice(), name) {
            return Some((at, place, found));
        }
        at += 1;
    }
    None
}

/// What a name means, by places from 0.
#[derive(Clone, Copy)]
pub(crate) enum Meaning<'s> {
    Variable(usize, &'s Variable),
    /// An attribute of the port at the first place.
    Attribute(usize, usize, &'s Attribute),
    Port(usize, &'s Port),
    Nothing,
}

/// What the name means: a variable, an attribute of one port, or the tuple of a port.
pub(crate) fn meaning_of<'s>(scope: &'s Scope, name: &[u8]) -> Meaning<'s>
    ensures { Means (meant scope.now name.now) result }
{
    if let Some((place, found)) = variable_named(scope, name) {
        return Meaning::Variable(place, found);
    }
    let ports = scope.ports.as_slice();
    match holder(ports, 0, name) {
        Some((at, place, found)) => match holder(ports, at + 1, name) {
            Some(_) => Meaning::Nothing,
            None => Meaning::Attribute(at, place, found),
        },
        None => match port_named(ports, name) {
            Some((at, found)) => Meaning::Port(at, found),
            None => Meaning::Nothing,
        },
    }
}

/// A name of that type.
fn slot_typed(alloc: Global, kind: Boxed<SplType>, slot: Slot) -> Result<Typed, TypeAnswer>
    ensures { Finds (Ok (typed kind (C.Name slot))) result }
{
    let code = Boxed::new(alloc, Code::Name(slot))?;
    Ok(Typed { kind, code })
}

/// A variable at a place.
fn variable_typed(alloc: Global, place: usize, found: &Variable) -> Result<Typed, TypeAnswer>
    ensures { Finds (Ok (typed found.now.kind (C.Name (L.Variable place)))) result }
{
    let place = narrow(place)?;
    slot_typed(
        alloc,
        boxed_copy(alloc, &found.kind)?,
        Slot::Variable(place),
    )
}

/// An attribute at a place, of the port at another.
pub(crate) fn attribute_typed(
    alloc: Global,
    port: usize,
    place: usize,
    found: &Attribute,
) -> Result<Typed, TypeAnswer>
    ensures { Finds (Ok (typed found.now.kind (C.Name (L.Attribute port place)))) result }
{
    let port = narrow(port)?;
    let attribute = narrow(place)?;
    let kind = boxed_copy(alloc, &found.kind)?;
    slot_typed(alloc, kind, Slot::Attribute { port, attribute })
}

/// The tuple of the port at a place.
fn port_typed(alloc: Global, place: usize, found: &Port) -> Result<Typed, TypeAnswer>
    ensures { Finds (Ok (typed (S.Tuple found.now.schema) (C.Name (L.Port place)))) result }
{
    let place = narrow(place)?;
    let schema = copy_schema(alloc, found.schema.as_slice())?;
    let kind = Boxed::new(alloc, SplType::Tuple(schema))?;
    slot_typed(alloc, kind, Slot::Port(place))
}

/// The type and the code of a name at its place in the program.
pub fn name_typed(alloc: Global, scope: &Scope, at: u32, name: &[u8]) -> Result<Typed, TypeAnswer>
    ensures { Finds (meant_typed at name.now (meant scope.now name.now)) result }
{
    match meaning_of(scope, name) {
        Meaning::Variable(place, found) => variable_typed(alloc, place, found),
        Meaning::Attribute(port, place, found) => attribute_typed(alloc, port, place, found),
        Meaning::Port(place, found) => port_typed(alloc, place, found),
        Meaning::Nothing => Err(unknown(alloc, at, name)),
    }
}

/// The type and the code of the value of a `$` parameter, or the refusal of that value.
pub fn dollar_typed(alloc: Global, scope: &Scope, at: u32, name: &[u8]) -> Result<Typed, TypeAnswer>
    ensures { Finds (dollar_typed at name.now (dollar_of scope.now.dollars name.now)) result }
{
    match dollar_named(scope.dollars.as_slice(), name) {
        Some(Ok(typed)) => Ok(copy_typed(alloc, typed)?),
        Some(Err(refusal)) => Err(TypeAnswer::Refused(copy_refusal(alloc, refusal)?)),
        None => Err(unknown(alloc, at, name)),
    }
}
