// The lists of a table, each under its name.
ghost use Rattle.std.specs.Prelude.{◌≡◌, IfOk};
ghost use Rattle.std.specs.Option.{option_copied};
ghost use Rattle.memory_files.specs.Plain.{or_empty};
ghost use Rattle.feed_pour.specs.Table.{under};

use feed_pour::{Entry, find};
use spl_value::{Items, Name, NoMemory};
use std::alloc::Global;

/// The list under a name, where there is one.
pub fn list_under<'a, T>(table: &'a [Entry<Items<T>>], name: &Name) -> Option<&'a [T]>
    ensures { option_copied result ≡ under table.now name.now }
{
    match find(table, name) {
        None => None,
        Some(list) => Some(list.as_slice()),
    }
}

/// A copy of the list under a name, or an empty list where there is none.
pub fn copy_under<T: Copy>(
    alloc: Global,
    table: &[Entry<Items<T>>],
    name: &Name,
) -> Result<Items<T>, NoMemory>
    ensures { IfOk result (λ list. list ≡ or_empty (under table.now name.now)) }
{
    match list_under(table, name) {
        None => Ok(Items::new(alloc)),
        Some(list) => Ok(Items::from_slice(alloc, list)?),
    }
}
