// Values by name.
ghost use Rattle.std.specs.Prelude.{◌≡◌, OnOk, OnErr, IsOk, IsSome, position};
ghost use Rattle.std.specs.Str.{bytes_eq};
ghost use Rattle.std.specs.Option.{option_copied};
ghost use Rattle.feed_pour.specs.Table.{under, Puts};

use spl_value::{Items, Name};
use std::alloc::{AllocError, Global};

/// A value and the name that it stands under.
#[derive(Drop)]
pub struct Entry<T> {
    pub name: Name,
    pub value: T,
}

fn place_of<T>(table: &[Entry<T>], name: &Name) -> Option<usize>
    ensures { result ≡ position (λ entry. bytes_eq entry.name name.now) table.now }
{
    table.iter().position(|entry| entry.name == *name)
}

/// The value under a name.
pub fn find<'a, T>(table: &'a [Entry<T>], name: &Name) -> Option<&'a T>
    ensures { option_copied result ≡ under table.now name.now }
{
    match place_of(table, name) {
        None => None,
        Some(at) => Some(&table[at].value),
    }
}

/// Puts a value under a name. Only a new name takes memory.
pub fn put<T: Drop>(
    alloc: Global,
    table: &mut Vec<Entry<T>>,
    name: &Name,
    value: T,
) -> Result<(), AllocError>
    ensures ok { OnOk result (Puts (under table.old.items) (under table.new.items) name.now value) }
    ensures err { OnErr result (table.new.items ≡ table.old.items) }
    ensures known { IsSome (under table.old.items name.now) → IsOk result }
{
    match place_of(table.as_slice(), name) {
        Some(at) => table[at].value = value,
        None => {
            let name = Items::from_slice(alloc, name.as_slice())?;
            table.push(Entry { name, value })?;
        }
    }
    Ok(())
}
