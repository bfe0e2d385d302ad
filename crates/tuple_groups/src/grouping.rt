//! Groups of tuples by their keys.
ghost use Rattle.std.specs.Prelude.{◌≡◌, ◌∷◌, ◌++◌, [], IfOk, List, map};
ghost use Rattle.spl_value.specs.declared.value.Value.{Value as V};
ghost use Rattle.stream_model.specs.Groups.{groups as groups_of};
ghost use Rattle.tuple_groups.specs.Seen.{entry_of, seen};
ghost use Rattle.tuple_groups.specs.steps.Gathering.{HasGroups};

use crate::keys::key_of;
use indexmap::IndexMap;
use key_maps::ascending;
use spl_value::{NoMemory, Places, Values};
use std::alloc::Global;

/// A group of one tuple.
fn first<'a>(alloc: Global, tuple: &'a Values) -> Result<Vec<&'a Values>, NoMemory>
    ensures { IfOk result (λ members. seen members.items ≡ tuple.now ∷ []) }
{
    let mut members = Vec::new(alloc);
    members.push(tuple)?;
    Ok(members)
}

/// Adds a tuple after the others of its group.
fn add<'a>(members: &mut Vec<&'a Values>, tuple: &'a Values) -> Result<(), NoMemory>
    ensures { IfOk result (λ _. seen members.new.items ≡ seen members.old.items ++ tuple.now ∷ []) }
{
    members.push(tuple)?;
    Ok(())
}

/// Puts a tuple into its group.
fn gather<'a>(
    alloc: Global,
    gathered: &mut IndexMap<Values, Vec<&'a Values>>,
    places: &Places,
    tuple: &'a Values,
) -> Result<(), NoMemory>
    ensures { IfOk result (λ _. (ts : List (List V)) → HasGroups places.now gathered.old ts → HasGroups places.now gathered.new (ts ++ tuple.now ∷ [])) }
{
    let key = key_of(alloc, tuple, places)?;
    if let Some(members) = gathered.get_mut(&key) {
        add(members, tuple)?;
        return Ok(());
    }
    let members = first(alloc, tuple)?;
    gathered.insert(key, members)?;
    Ok(())
}

/// The groups of tuples by their values at the places, each with its key, by ascending key. The tuples of a
/// group stay in their order. Without places all tuples, where there are some, are one group with an empty key.
pub fn groups<'a>(
    alloc: Global,
    places: &Places,
    tuples: &[&'a Values],
) -> Result<Vec<(Values, Vec<&'a Values>)>, NoMemory>
    ensures { IfOk result (λ v. map entry_of v.items ≡ groups_of places.now (seen tuples.now)) }
{
    let mut gathered: IndexMap<Values, Vec<&'a Values>> = IndexMap::new(alloc);
    for tuple in tuples {
        gather(alloc, &mut gathered, places, *tuple)?;
    }
    let entries = ascending(alloc, gathered)?;
    Ok(entries)
}
