//! Definitions of types by their names.
ghost use Rattle.std.specs.Prelude.{◌≡◌, IfOk, List, map, slice_get};
ghost use Rattle.std.specs.Coded.{coded_list};
ghost use Rattle.std.specs.HashMap.{get};
ghost use Rattle.std.specs.Option.{option_copied, option_map};
ghost use Rattle.spl_tree.specs.contracts.unit.TypeDefinition as row;
ghost use Rattle.spl_tree.specs.declared.unit.TypeDefinition.{TypeDefinition};
ghost use Rattle.language_model.specs.Scopes.{at_place};
ghost use Rattle.language_model.specs.TypeNames.{definition_of};
ghost use Rattle.written_types.specs.steps.Definitions.{HasFirst, same_bytes};

use spl_tree::TypeDefinition;
use spl_value::NoMemory;
use std::alloc::Global;
use std::collections::HashMap;
use std::marker::Model;

/// Definitions of types, with the place of the first of each name.
#[derive(Drop)]
pub(crate) struct Definitions<'u> {
    list: Vec<&'u TypeDefinition>,
    places: HashMap<&'u [u8], u32>,
}

impl<'u> Model for Definitions<'u> {
    ghost Value = { List TypeDefinition };

    ghost coded = { coded_list row.the_row.coded };

    ghost view = { λ d. map (λ t. t.now) d.list.items };

    ghost invariant = { λ d. HasFirst (map (λ t. t.now) d.list.items) (get same_bytes d.places) };
}

/// A place as it stands in tables and rows. A place of more than 32 bits isn't in memory.
pub fn narrow(place: usize) -> Result<u32, NoMemory>
    ensures { IfOk result (λ n. n ≡ place) }
{
    match u32::try_from(place) {
        Ok(narrow) => Ok(narrow),
        Err(_) => Err(NoMemory),
    }
}

/// The first place of each name. The last definitions come first, so that those before them take their
/// places.
fn first_places<'u>(
    alloc: Global,
    definitions: &[&'u TypeDefinition],
) -> Result<HashMap<&'u [u8], u32>, NoMemory>
    ensures { IfOk result (λ places. HasFirst (map (λ t. t.now) definitions.now) (get same_bytes places)) }
{
    let mut places = HashMap::new(alloc);
    let mut left = definitions.len();
    'definitions: while left > 0 {
        left -= 1;
        let place = narrow(left)?;
        places.insert(definitions[left].name.what.as_slice(), place)?;
    }
    Ok(places)
}

impl<'u> Definitions<'u> {
    pub(crate) fn new(
        alloc: Global,
        list: Vec<&'u TypeDefinition>,
    ) -> Result<Definitions<'u>, NoMemory>
        ensures { IfOk result (λ d. d ≡ map (λ t. t.now) list.entry.items) }
    {
        let places = first_places(alloc, list.as_slice())?;
        Ok(Definitions { list, places })
    }

    pub(crate) fn list(&self) -> &[&'u TypeDefinition]
        ensures { map (λ t. t.now) result.now ≡ self.now }
    {
        self.list.as_slice()
    }

    /// The place of the definition of a name.
    pub(crate) fn place(&self, name: &[u8]) -> Option<u32>
        ensures { result ≡ option_map (λ d. d.place) (definition_of self.now name.now) }
    {
        self.places.get(name).copied()
    }

    fn at(&self, place: u32) -> Option<&'u TypeDefinition>
        ensures { option_copied result ≡ slice_get self.now place }
    {
        self.list.get(place as usize).copied()
    }

    /// The definition of a name, with its place.
    pub(crate) fn named(&self, name: &[u8]) -> Option<(u32, &'u TypeDefinition)>
        ensures { option_map (λ p. at_place p.0 p.1.now) result ≡ definition_of self.now name.now }
    {
        let place = self.place(name)?;
        let definition = self.at(place)?;
        Some((place, definition))
    }
}
