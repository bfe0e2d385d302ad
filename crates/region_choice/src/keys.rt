//! The keys of a region's operators, and the region's key.
ghost use Rattle.std.specs.Prelude.{◌≡◌, IfOk, filter};
ghost use Rattle.stream_model.specs.Regions.{numbers_to};
ghost use Rattle.region_choice.specs.steps.Keys.{copied, is_copied, source_at};

use spl_value::{Items, NoMemory, Places};
use std::alloc::Global;

/// A key of an operator by its place, and the attribute of the stream that the region reads of which it is a
/// copy.
#[derive(Clone, Copy)]
pub(crate) struct KeySource {
    pub place: u32,
    pub source: Option<u32>,
}

/// What the key at this place is a copy of.
pub(crate) fn source_at(sources: &[KeySource], place: u32) -> Option<u32>
    ensures { result ≡ source_at sources.now place }
{
    for x in sources {
        if x.place == place {
            return x.source;
        }
    }
    None
}

/// The attribute at this place, where one of the keys is a copy of it.
fn copied(sources: &[KeySource], attribute: usize) -> Option<u32>
    ensures { result ≡ copied sources.now attribute }
{
    for x in sources {
        match x.source {
            Some(source) if source as usize == attribute => return Some(source),
            _ => {}
        }
    }
    None
}

/// Of a stream's attributes, whose number is given, those of which one of the keys is a copy.
pub(crate) fn first_key(
    alloc: Global,
    attributes: usize,
    sources: &[KeySource],
) -> Result<Places, NoMemory>
    ensures { IfOk result (λ key. key ≡ filter (is_copied sources.now) (numbers_to attributes)) }
{
    let mut key = Items::new(alloc);
    for attribute in 0..attributes {
        if let Some(place) = copied(sources, attribute) {
            key.push(place)?;
        }
    }
    Ok(key)
}

/// The attributes of a key of which one of the keys is a copy.
pub(crate) fn kept_key(
    alloc: Global,
    key: &Places,
    sources: &[KeySource],
) -> Result<Places, NoMemory>
    ensures { IfOk result (λ kept. kept ≡ filter (is_copied sources.now) key.now) }
{
    let mut kept = Items::new(alloc);
    for attribute in key.as_slice() {
        if let Some(place) = copied(sources, *attribute as usize) {
            kept.push(place)?;
        }
    }
    Ok(kept)
}
