//! The composites and invocations that operators and bodies come from.
ghost use Rattle.std.specs.Prelude.{◌≡◌, map, IfOk};
ghost use Rattle.std.specs.Option.{option_copied, option_map};
ghost use Rattle.language_model.specs.Composites.{composites};
ghost use Rattle.language_model.specs.Names.{is_named};
ghost use Rattle.language_model.specs.DollarTargets.{composite_of, arguments_of};
ghost use Rattle.language_model.specs.TypeNames.{type_definitions};
ghost use Rattle.body_sites.specs.Bodies.{body_at_sites, body_seen};
ghost use Rattle.program_tables.specs.Names.{HoldsNames};
ghost use Rattle.body_sites.specs.Names.{type_names_of};
ghost use Rattle.program_tables.specs.SameComposites.{same_composites};
ghost use Rattle.body_sites.specs.Sites.{MeansTypes};

use crate::bodies::Body;
use crate::names::BodyNames;
use program_tables::{Names, SiteTable};
use spl_tree::{Composite, Definition, Expansion, Parameter, Unit};
use spl_value::NoMemory;
use std::alloc::Global;
use written_types::{TypeScope, TypeTable};

/// A unit with its expansions, in which names are looked up. It is made once for all operators.
pub struct Sites<'a> {
    pub unit: &'a Unit,
    pub expansions: &'a [Expansion],
    /// The same unit and expansions, in which sites are looked up.
    pub table: SiteTable<'a>,
    /// The composites of the unit, by their places.
    bodies: Vec<BodyNames<'a>>,
    pub(crate) unit_types: TypeTable<'a>,
    unit_names: Names<'a>,
    ghost table_unit: { table.unit.now ≡ unit.now },
    ghost table_expansions: { table.expansions.now ≡ expansions.now },
    ghost all: { map (λ b. b.composite.now) bodies.items ≡ composites unit.now } by { same_composites _ _ },
    ghost unit_defined: { unit_types ≡ type_definitions unit.now },
    ghost unit_named: { HoldsNames unit_names (type_names_of (type_definitions unit.now)) },
}

impl<'a> Drop for Sites<'a> {
    fn drop(self) {
        let Sites {
            unit: _,
            expansions: _,
            table: _,
            bodies: _,
            unit_types: _,
            unit_names: _,
        } = self;
    }
}

impl<'a> Sites<'a> {
    /// Looks at all composites of a unit.
    pub fn new(
        alloc: Global,
        unit: &'a Unit,
        expansions: &'a [Expansion],
    ) -> Result<Sites<'a>, NoMemory>
        ensures unit { IfOk result (λ sites. sites.unit.now ≡ unit.now) }
        ensures expansions { IfOk result (λ sites. sites.expansions.now ≡ expansions.now) }
    {
        let table = SiteTable::new(alloc, unit, expansions)?;
        let bodies = bodies_of(alloc, unit)?;
        let unit_types = TypeTable::of_unit(alloc, unit)?;
        let unit_names = type_names(alloc, unit)?;
        Ok(Sites {
            unit,
            expansions,
            table,
            bodies,
            unit_types,
            unit_names,
        })
    }

    fn names(&self, expansion: &Expansion) -> Option<&BodyNames<'a>>
        ensures { option_map (λ b. b.now.composite.now) result ≡ composite_of self.now.unit.now expansion.now }
    {
        self.bodies.get(expansion.composite as usize)
    }

    /// The composite whose body an expansion is.
    pub fn composite(&self, expansion: &Expansion) -> Option<&'a Composite>
        ensures { option_copied result ≡ composite_of self.now.unit.now expansion.now }
    {
        let names = self.names(expansion)?;
        Some(names.composite)
    }

    /// The body of the expansion of a number.
    pub fn body<'s>(&'s self, number: u32) -> Option<Body<'s>>
        ensures { option_map body_seen result ≡ body_at_sites self.now.unit.now self.now.expansions.now number }
    {
        self.body_among(self.expansions, number)
    }

    /// The body of one of some expansions, by its number.
    pub fn body_among<'s>(&'s self, expansions: &'s [Expansion], number: u32) -> Option<Body<'s>>
        ensures { option_map body_seen result ≡ body_at_sites self.now.unit.now expansions.now number }
    {
        let expansion = expansions.get(number as usize)?;
        let names = self.names(expansion)?;
        Some(Body::new(number, expansion, names))
    }

    /// What the names of types mean in the body of an expansion.
    pub fn types<'t>(&'t self, expansion: &Expansion) -> Option<TypeScope<'t, 'a>>
        ensures { MeansTypes self.now.unit.now (composite_of self.now.unit.now expansion.now) result }
    {
        let names = self.names(expansion)?;
        Some(TypeScope::of_composite(&names.table, &self.unit_types))
    }

    /// Whether the unit defines a type of the name.
    pub(crate) fn has_type(&self, name: &[u8]) -> bool
        ensures { result ≡ is_named (type_names_of (type_definitions self.now.unit.now)) name.now }
    {
        self.unit_names.has(name)
    }

    /// The arguments that an expansion has; the main one has none.
    pub fn arguments(&self, expansion: &Expansion) -> &'a [Parameter]
        ensures { result.now ≡ arguments_of self.now.unit.now self.now.expansions.now expansion.now }
    {
        self.table.arguments(expansion)
    }
}

/// The names of the types of a unit.
fn type_names(alloc: Global, unit: &Unit) -> Result<Names<'_>, NoMemory>
    ensures { IfOk result (λ names. HoldsNames names (type_names_of (type_definitions unit.now))) }
{
    let mut names = Names::new(alloc);
    for definition in unit.as_slice() {
        if let Definition::Type(definition) = definition {
            names.add(definition.name.what.as_slice())?;
        }
    }
    Ok(names)
}

/// The composites of a unit, in the order of the text.
fn bodies_of(alloc: Global, unit: &Unit) -> Result<Vec<BodyNames<'_>>, NoMemory>
    ensures { IfOk result (λ bodies. map (λ b. b.composite.now) bodies.items ≡ composites unit.now) }
{
    let mut bodies = Vec::new(alloc);
    for definition in unit.as_slice() {
        if let Definition::Composite(composite) = definition {
            bodies.push(BodyNames::new(alloc, composite)?)?;
        }
    }
    Ok(bodies)
}
