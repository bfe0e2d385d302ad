//! What is looked up by name: the composites of a unit, and in each what the names of its graph mean.
ghost use Rattle.std.specs.Prelude.{◌≡◌, IfOk, map, slice_get, length};
ghost use Rattle.std.specs.Option.{option_map};
ghost use Rattle.program_tables.specs.Names.{HoldsNames};
ghost use Rattle.program_tables.specs.SameComposites.{same_composites};
ghost use Rattle.composite_tables.specs.Names.{composite_names};
ghost use Rattle.language_model.specs.Composites.{composites, composite_named};
ghost use Rattle.language_model.specs.Expansion.{place_of};
ghost use Rattle.language_model.specs.Scopes.{at_place};
ghost use Rattle.language_model.specs.Invoking.{is_parameter, stream_names, input_names};
ghost use Rattle.language_model.specs.Names.{is_named};
ghost use Rattle.language_model.specs.parts.Invoking.{is_readable};

use program_tables::{Names, names_of, names_of_streams};
use spl_tree::{Composite, Definition, Unit};
use spl_value::NoMemory;
use std::alloc::Global;

/// A composite, and what its names mean.
#[derive(Drop)]
pub struct Scope<'u> {
    pub composite: &'u Composite,
    /// Those of the streams that its graph makes, in the order of the text.
    streams: Names<'u>,
    inputs: Names<'u>,
    parameters: Names<'u>,
    ghost streams_stand: { HoldsNames streams (stream_names composite.now) },
    ghost inputs_stand: { HoldsNames inputs (input_names composite.now) },
    ghost parameters_stand: { HoldsNames parameters (map (λ p. p.name.what) composite.now.parameters) },
}

impl<'u> Scope<'u> {
    /// The place of a stream among those that the graph makes.
    pub fn stream(&self, name: &[u8]) -> Option<u32>
        ensures { result ≡ place_of name.now (stream_names self.now.composite.now) }
    {
        self.streams.place(name)
    }

    /// The place of an input port.
    pub(crate) fn input(&self, name: &[u8]) -> Option<u32>
        ensures { result ≡ place_of name.now (input_names self.now.composite.now) }
    {
        self.inputs.place(name)
    }

    pub(crate) fn makes(&self, name: &[u8]) -> bool
        ensures { result ≡ is_named (stream_names self.now.composite.now) name.now }
    {
        self.streams.has(name)
    }

    /// Whether an invocation in the composite may read a stream of this name.
    pub fn may_read(&self, name: &[u8]) -> bool
        ensures { result ≡ is_readable self.now.composite.now name.now }
    {
        self.streams.has(name) || self.inputs.has(name)
    }

    /// Whether the composite has a `$` parameter of this name.
    pub fn has_parameter(&self, name: &[u8]) -> bool
        ensures { result ≡ is_parameter self.now.composite.now name.now }
    {
        self.parameters.has(name)
    }
}

fn scope_of<'u>(alloc: Global, composite: &'u Composite) -> Result<Scope<'u>, NoMemory>
    ensures { IfOk result (λ scope. scope.composite.now ≡ composite.now) }
{
    Ok(Scope {
        composite,
        streams: names_of_streams(alloc, composite.graph.as_slice())?,
        inputs: names_of(alloc, composite.inputs.as_slice())?,
        parameters: names_of(alloc, composite.parameters.as_slice())?,
    })
}

/// The composites of a unit.
pub struct Composites<'u> {
    pub unit: &'u Unit,
    scopes: Vec<Scope<'u>>,
    names: Names<'u>,
    ghost scopes_stand: { map (λ s. s.composite.now) scopes.items ≡ composites unit.now } by { same_composites _ _ },
    ghost names_stand: { HoldsNames names (composite_names unit.now) },
}

impl<'u> Drop for Composites<'u> {
    fn drop(self) {
        let Composites {
            unit: _,
            scopes: _,
            names: _,
        } = self;
    }
}

impl<'u> Composites<'u> {
    /// The composites of a unit, in the order of the text.
    pub fn new(alloc: Global, unit: &'u Unit) -> Result<Composites<'u>, NoMemory>
        ensures { IfOk result (λ cs. cs.unit.now ≡ unit.now) }
    {
        let mut scopes = Vec::new(alloc);
        let mut names = Names::new(alloc);
        for definition in unit.as_slice() {
            if let Definition::Composite(composite) = definition {
                scopes.push(scope_of(alloc, composite)?)?;
                names.add(composite.name.what.as_slice())?;
            }
        }
        Ok(Composites {
            unit,
            scopes,
            names,
        })
    }

    /// How many composites the unit has.
    pub fn count(&self) -> u32
        ensures { result ≡ length (composites self.now.unit.now) }
    {
        self.names.count
    }

    /// The composite at a place.
    pub fn scope_at(&self, place: u32) -> Option<&Scope<'u>>
        ensures { option_map (λ s. s.now.composite.now) result ≡ slice_get (composites self.now.unit.now) place }
    {
        self.scopes.get(place as usize)
    }

    /// The first composite of that name, with its place.
    pub fn named(&self, name: &[u8]) -> Option<(u32, &Scope<'u>)>
        ensures { option_map (λ p. at_place p.0 p.1.now.composite.now) result ≡ composite_named self.now.unit.now name.now }
    {
        let place = self.names.place(name)?;
        let scope = self.scope_at(place)?;
        Some((place, scope))
    }
}
