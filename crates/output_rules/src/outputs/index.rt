//! Attributes by their names.
ghost use Rattle.std.specs.Prelude.{◌≡◌, ◌<◌, IfOk, IfSome, length, slice_get};
ghost use Rattle.std.specs.HashMap.{get};
ghost use Rattle.std.specs.Option.{option_copied};
ghost use Rattle.language_model.specs.Scopes.{attribute_of};
ghost use Rattle.language_model.specs.Finds.{Points};
ghost use Rattle.output_rules.specs.steps.Indexed.{HasFirst, place_from, same_bytes};

use spl_value::{Attribute, NoMemory};
use std::alloc::Global;
use std::collections::HashMap;

/// Attributes, with the place of the first of each name.
#[derive(Drop)]
pub(super) struct Index<'s> {
    pub(super) schema: &'s [Attribute],
    places: HashMap<&'s [u8], u32>,
    ghost firsts: { HasFirst schema.now (get same_bytes places) },
}

/// A place as it stands in an index. A place of more than 32 bits isn't in memory.
fn entry(place: usize) -> Result<u32, NoMemory>
    ensures { IfOk result (λ n. n ≡ place) }
{
    match u32::try_from(place) {
        Ok(entry) => Ok(entry),
        Err(_) => Err(NoMemory),
    }
}

/// The first place of each name. The last attributes come first, so that those before them take their
/// places.
fn first_places<'s>(
    alloc: Global,
    schema: &'s [Attribute],
) -> Result<HashMap<&'s [u8], u32>, NoMemory>
    ensures { IfOk result (λ places. HasFirst schema.now (get same_bytes places)) }
{
    let mut places = HashMap::new(alloc);
    let mut left = schema.len();
    'attributes: while left > 0 {
        left -= 1;
        let place = entry(left)?;
        places.insert(schema[left].name.as_slice(), place)?;
    }
    Ok(places)
}

impl<'s> Index<'s> {
    pub(super) fn new(alloc: Global, schema: &'s [Attribute]) -> Result<Index<'s>, NoMemory>
        ensures { IfOk result (λ x. x.schema.now ≡ schema.now) }
    {
        let places = first_places(alloc, schema)?;
        Ok(Index { schema, places })
    }

    fn place(&self, name: &[u8]) -> Option<u32>
        ensures { result ≡ place_from 0 self.now.schema.now name.now }
    {
        self.places.get(name).copied()
    }

    fn at(&self, place: u32) -> Option<&'s Attribute>
        ensures { option_copied result ≡ slice_get self.now.schema.now place }
    {
        self.schema.get(place as usize)
    }

    /// The attribute of the name, with its place.
    pub(super) fn attribute(&self, name: &[u8]) -> Option<(usize, &'s Attribute)>
        ensures found { Points (attribute_of self.now.schema.now name.now) result }
        ensures within { IfSome result (λ p. p.0 < length self.now.schema.now) }
    {
        let place = self.place(name)?;
        let found = self.at(place)?;
        Some((place as usize, found))
    }
}
