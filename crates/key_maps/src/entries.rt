//! Entries of maps in the order of their keys.
ghost use Rattle.std.specs.Prelude.{◌≡◌, IfOk, List, T};
ghost use Rattle.std.specs.FinMap.{find, is_sorted};
ghost use Rattle.indexmap.specs.IndexMap.{get};
ghost use Rattle.spl_value.specs.declared.value.Value.{Value as V};
ghost use Rattle.spl_value.specs.KeyOrder.{key_cmp};
ghost use Rattle.key_maps.specs.MapKeys.{equal_key};

use indexmap::IndexMap;
use spl_value::{NoMemory, Values};
use std::alloc::Global;

/// The entries of a map, by ascending key.
///
/// `NoMemory` comes where there is none for the entries or for sorting them.
pub fn ascending<X: Drop>(
    alloc: Global,
    map: IndexMap<Values, X>,
) -> Result<Vec<(Values, X)>, NoMemory>
    ensures sorted { IfOk result (λ v. T (is_sorted key_cmp v.items)) }
    ensures found { IfOk result (λ v. (q : List V) → find key_cmp q v.items ≡ get equal_key map q) }
{
    let mut map = map;
    map.sort_keys()?;
    let pairs = map.into_iter().collect(alloc)?;
    Ok(pairs)
}
