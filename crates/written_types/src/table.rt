//! What names of types mean.
ghost use Rattle.std.specs.Prelude.{◌≡◌, IfOk, List, map, slice_get};
ghost use Rattle.std.specs.Coded.{coded_list};
ghost use Rattle.spl_tree.specs.contracts.unit.TypeDefinition as row;
ghost use Rattle.spl_tree.specs.declared.unit.TypeDefinition.{TypeDefinition};
ghost use Rattle.language_model.specs.TypeNames.{definition_of, type_definitions};
ghost use Rattle.written_types.specs.Circles.{TellsCircular};
ghost use Rattle.written_types.specs.steps.Circles.{TellsBack, told, with_circle};
ghost use Rattle.written_types.specs.Stepping.{LeadsWithin};

use crate::definitions::{Definitions, narrow};
use crate::leading::leads_back;
use crate::places::rows_of;
use spl_tree::{Composite, Definition, TypeDefinition, Unit};
use spl_value::{Items, NoMemory};
use std::alloc::Global;
use std::marker::Model;

/// The definitions of types of a unit or of a composite. What names mean among them is looked up.
pub struct TypeTable<'u> {
    definitions: Definitions<'u>,
    /// Whether each leads back to itself.
    circular: Vec<bool>,
}

impl<'u> Drop for TypeTable<'u> {
    fn drop(self) {
        let TypeTable {
            definitions: _,
            circular: _,
        } = self;
    }
}

impl<'u> Model for TypeTable<'u> {
    ghost Value = { List TypeDefinition };

    ghost coded = { coded_list row.the_row.coded };

    ghost view = { λ t. t.definitions };

    ghost invariant = { λ t. TellsCircular t.definitions t.circular.items };
}

/// For each place, whether it leads back to itself.
fn circles(alloc: Global, rows: &[Items<u32>]) -> Result<Vec<bool>, NoMemory>
    requires { LeadsWithin rows.now }
    ensures { IfOk result (λ flags. TellsBack rows.now flags.items) }
{
    let count = narrow(rows.len())?;
    let mut flags = Vec::new(alloc);
    for place in 0..count {
        flags.push(leads_back(alloc, rows, place)?)?;
    }
    Ok(flags)
}

fn flag_at(flags: &[bool], place: u32) -> Option<bool>
    ensures { result ≡ slice_get flags.now place }
{
    flags.get(place as usize).copied()
}

impl<'u> TypeTable<'u> {
    /// The table of some definitions, of which the first of a name counts.
    fn new(alloc: Global, list: Vec<&'u TypeDefinition>) -> Result<TypeTable<'u>, NoMemory>
        ensures { IfOk result (λ t. t ≡ map (λ d. d.now) list.entry.items) }
    {
        let definitions = Definitions::new(alloc, list)?;
        let rows = rows_of(alloc, &definitions)?;
        let circular = circles(alloc, rows.as_slice())?;
        Ok(TypeTable {
            definitions,
            circular,
        })
    }

    /// The types of a unit.
    pub fn of_unit(alloc: Global, unit: &'u Unit) -> Result<TypeTable<'u>, NoMemory>
        ensures { IfOk result (λ t. t ≡ type_definitions unit.now) }
    {
        let mut list = Vec::new(alloc);
        for definition in unit.as_slice() {
            if let Definition::Type(definition) = definition {
                list.push(definition)?;
            }
        }
        TypeTable::new(alloc, list)
    }

    /// The types of a composite alone.
    pub fn of_composite(alloc: Global, composite: &'u Composite) -> Result<TypeTable<'u>, NoMemory>
        ensures { IfOk result (λ t. t ≡ composite.now.types) }
    {
        let mut list = Vec::new(alloc);
        for definition in composite.types.as_slice() {
            list.push(definition)?;
        }
        TypeTable::new(alloc, list)
    }

    /// The definition of a name, and whether it leads back to itself.
    pub(crate) fn definition(&self, name: &[u8]) -> Option<(&'u TypeDefinition, bool)>
        ensures { told result ≡ with_circle self.now (definition_of self.now name.now) }
    {
        let (place, definition) = self.definitions.named(name)?;
        let circular = flag_at(self.circular.as_slice(), place)?;
        Some((definition, circular))
    }
}
