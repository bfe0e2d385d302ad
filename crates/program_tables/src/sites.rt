//! The composites and invocations that operators and expansions come from.
ghost use Rattle.std.specs.Prelude.{◌≡◌, map, slice_get, IfOk};
ghost use Rattle.std.specs.Option.{option_copied};
ghost use Rattle.language_model.specs.Composites.{composites};
ghost use Rattle.language_model.specs.DollarTargets.{composite_of, invocation_at, arguments_of, heads_of};

use spl_tree::{
    Composite, CompositeParameter, Definition, Expansion, Invocation, Parameter, Site, Unit,
};
use spl_value::NoMemory;
use std::alloc::Global;

/// A unit with its expansions, in which sites are looked up.
pub struct SiteTable<'a> {
    pub unit: &'a Unit,
    /// The composites of the unit, by their places.
    bodies: Vec<&'a Composite>,
    pub expansions: &'a [Expansion],
    ghost all: { map (λ c. c.now) bodies.items ≡ composites unit.now },
}

impl<'a> Drop for SiteTable<'a> {
    fn drop(self) {
        let SiteTable {
            unit: _,
            bodies: _,
            expansions: _,
        } = self;
    }
}

impl<'a> SiteTable<'a> {
    /// Looks at all composites of a unit.
    pub fn new(
        alloc: Global,
        unit: &'a Unit,
        expansions: &'a [Expansion],
    ) -> Result<SiteTable<'a>, NoMemory>
        ensures unit { IfOk result (λ table. table.unit.now ≡ unit.now) }
        ensures expansions { IfOk result (λ table. table.expansions.now ≡ expansions.now) }
    {
        let bodies = composites_of(alloc, unit)?;
        Ok(SiteTable {
            unit,
            bodies,
            expansions,
        })
    }

    /// The expansion of a number.
    pub fn expansion(&self, number: u32) -> Option<&'a Expansion>
        ensures { option_copied result ≡ slice_get self.now.expansions.now number }
    {
        self.expansions.get(number as usize)
    }

    /// The composite whose body an expansion is.
    pub fn composite(&self, expansion: &Expansion) -> Option<&'a Composite>
        ensures { option_copied result ≡ composite_of self.now.unit.now expansion.now }
    {
        self.bodies.get(expansion.composite as usize).copied()
    }

    /// The invocation at a site.
    pub fn invocation(&self, site: Site) -> Option<&'a Invocation>
        ensures { option_copied result ≡ invocation_at self.now.unit.now self.now.expansions.now site }
    {
        let expansion = self.expansion(site.expansion)?;
        let composite = self.composite(expansion)?;
        composite.graph.get(site.invocation as usize)
    }

    /// The arguments that an expansion has; the main one has none.
    pub fn arguments(&self, expansion: &Expansion) -> &'a [Parameter]
        ensures { result.now ≡ arguments_of self.now.unit.now self.now.expansions.now expansion.now }
    {
        let Some(site) = expansion.site else {
            return &[];
        };
        match self.invocation(site) {
            Some(invocation) => invocation.clauses.parameters.as_slice(),
            None => &[],
        }
    }

    /// The parameters of the composite of an expansion.
    pub fn heads(&self, expansion: &Expansion) -> &'a [CompositeParameter]
        ensures { result.now ≡ heads_of self.now.unit.now expansion.now }
    {
        match self.composite(expansion) {
            Some(composite) => composite.parameters.as_slice(),
            None => &[],
        }
    }
}

/// The composites of a unit, in the order of the text.
fn composites_of(alloc: Global, unit: &Unit) -> Result<Vec<&Composite>, NoMemory>
    ensures { IfOk result (λ bodies. map (λ c. c.now) bodies.items ≡ composites unit.now) }
{
    let mut bodies = Vec::new(alloc);
    for definition in unit.as_slice() {
        if let Definition::Composite(composite) = definition {
            bodies.push(composite)?;
        }
    }
    Ok(bodies)
}
