//! What an output takes over from the ports of its scope.
ghost use Rattle.std.specs.Prelude.{◌≡◌, ◌≤◌, IfOk, length, map};
ghost use Rattle.language_model.specs.OutputTyping.{one_attribute, taken_over};
ghost use Rattle.language_model.specs.Typing.{same_types};
ghost use Rattle.language_model.specs.Finds.{Finds};
ghost use Rattle.output_rules.specs.steps.Indexed.{HoldsIn, attributes_in, same_schemas};

use super::index::Index;
use super::refusals::bad_output;
use language_model::{Port, Scope, TypeAnswer, narrow};
use spl_tree::{Code, Slot};
use spl_value::{Attribute, NoMemory, SplType, same_type};
use std::alloc::Global;

/// The attributes of ports.
fn indexed<'s>(alloc: Global, ports: &'s [Port]) -> Result<Vec<Index<'s>>, NoMemory>
    ensures { IfOk result (λ v. map (λ x. x.schema.now) v.items ≡ map (λ p. p.schema) ports.now) }
{
    let mut indices = Vec::new(alloc);
    for port in ports {
        indices.push(Index::new(alloc, port.schema.as_slice())?)?;
    }
    Ok(indices)
}

/// The first port from a place on that has an attribute of the name: the places of both, and the
/// attribute.
fn holder<'s>(
    ports: &[Index<'s>],
    from: usize,
    name: &[u8],
) -> Option<(usize, usize, &'s Attribute)>
    requires { from ≤ length ports.now }
    ensures { HoldsIn (map (λ x. x.schema.now) ports.now) from name.now result }
{
    let mut at = from;
    'ports: while at < ports.len() {
        if let Some((place, found)) = ports[at].attribute(name) {
            return Some((at, place, found));
        }
        at += 1;
    }
    None
}

/// Whether two types are the same.
pub(super) fn is_same(a: &SplType, b: &SplType) -> bool
    ensures { result ≡ same_types a.now b.now }
{
    same_type(a, b)
}

/// What an attribute takes over from ports.
fn from_ports(ports: &[Index], at: u32, attribute: &Attribute) -> Result<Code<Slot>, TypeAnswer>
    ensures { Finds (one_attribute at attribute.now.kind (attributes_in 0 (map (λ x. x.schema.now) ports.now) attribute.now.name)) result }
{
    let name = attribute.name.as_slice();
    let Some((port, place, found)) = holder(ports, 0, name) else {
        return Err(bad_output(at));
    };
    if let Some(_) = holder(ports, port + 1, name) {
        return Err(bad_output(at));
    }
    if !is_same(&found.kind, &attribute.kind) {
        return Err(bad_output(at));
    }
    let port = narrow(port)?;
    let attribute = narrow(place)?;
    Ok(Code::Name(Slot::Attribute { port, attribute }))
}

/// A scope, the attributes of whose ports are found by their names.
#[derive(Drop)]
pub(super) struct Inputs<'s> {
    pub(super) scope: &'s Scope,
    ports: Vec<Index<'s>>,
    ghost same: { map (λ x. x.schema.now) ports.items ≡ map (λ p. p.schema) scope.now.ports } by { same_schemas _ _ },
}

impl<'s> Inputs<'s> {
    pub(super) fn new(alloc: Global, scope: &'s Scope) -> Result<Inputs<'s>, NoMemory>
        ensures { IfOk result (λ x. x.scope.now ≡ scope.now) }
    {
        let ports = indexed(alloc, scope.ports.as_slice())?;
        Ok(Inputs { scope, ports })
    }

    /// What an attribute at an invocation takes over: the attribute of its name and type that one port
    /// alone has.
    pub(super) fn taken_over(
        &self,
        at: u32,
        attribute: &Attribute,
    ) -> Result<Code<Slot>, TypeAnswer>
        ensures { Finds (taken_over self.now.scope.now at attribute.now) result }
    {
        from_ports(self.ports.as_slice(), at, attribute)
    }
}
