// The four counts of each name that a shelf was asked for.
ghost use Rattle.std.specs.Prelude.{◌≡◌, ℕ, List, true, Some, OnOk};
ghost use Rattle.feed_pour.specs.Counts.{OpeningCounted, CreatingCounted, ReadingCounted, WritingCounted};
ghost use Rattle.feed_pour.specs.Contents.{KeepsNames};
ghost use Rattle.feed_pour.specs.Files.{counts_in, counts_of, knows};

use crate::table::{Entry, find, put};
use spl_value::Name;
use std::alloc::{AllocError, Global};

/// How often a name failed to open, to be created, to be read and to be written. Each count stands
/// still at 2^64 - 1.
#[derive(Clone, Copy)]
pub struct Tallies {
    pub opening: u64,
    pub creating: u64,
    pub reading: u64,
    pub writing: u64,
}

const NONE: Tallies = Tallies {
    opening: 0,
    creating: 0,
    reading: 0,
    writing: 0,
};

/// The counts of a name, 0 where it has no entry.
pub fn tallies_of(table: &[Entry<Tallies>], name: &Name) -> Tallies
    ensures { counts_of (Some result) ≡ counts_in table.now name.now }
{
    match find(table, name) {
        None => NONE,
        Some(t) => *t,
    }
}

/// Makes the entry of a name.
pub fn know(alloc: Global, table: &mut Vec<Entry<Tallies>>, name: &Name) -> Result<(), AllocError>
    ensures ok { OnOk result (knows table.new.items name.now) }
    ensures same { (n : List ℕ) → counts_in table.new.items n ≡ counts_in table.old.items n }
    ensures keeps { KeepsNames (knows table.old.items) (knows table.new.items) }
{
    let now = tallies_of(table.as_slice(), name);
    put(alloc, table, name, now)
}

/// Counts a fault of opening under a name that has an entry.
pub fn raise_opening(alloc: Global, table: &mut Vec<Entry<Tallies>>, name: &Name)
    requires { knows table.old.items name.now }
    ensures cause { OpeningCounted true (counts_in table.old.items) (counts_in table.new.items)
        name.now }
    ensures keeps { KeepsNames (knows table.old.items) (knows table.new.items) }
{
    let mut now = tallies_of(table.as_slice(), name);
    now.opening = now.opening.saturating_add(1);
    let _ = put(alloc, table, name, now);
}

/// Counts a fault of creating under a name that has an entry.
pub fn raise_creating(alloc: Global, table: &mut Vec<Entry<Tallies>>, name: &Name)
    requires { knows table.old.items name.now }
    ensures cause { CreatingCounted true (counts_in table.old.items) (counts_in table.new.items)
        name.now }
    ensures keeps { KeepsNames (knows table.old.items) (knows table.new.items) }
{
    let mut now = tallies_of(table.as_slice(), name);
    now.creating = now.creating.saturating_add(1);
    let _ = put(alloc, table, name, now);
}

/// Counts a fault of reading under a name that has an entry.
pub fn raise_reading(alloc: Global, table: &mut Vec<Entry<Tallies>>, name: &Name)
    requires { knows table.old.items name.now }
    ensures cause { ReadingCounted true (counts_in table.old.items) (counts_in table.new.items)
        name.now }
    ensures keeps { KeepsNames (knows table.old.items) (knows table.new.items) }
{
    let mut now = tallies_of(table.as_slice(), name);
    now.reading = now.reading.saturating_add(1);
    let _ = put(alloc, table, name, now);
}

/// Counts a fault of writing under a name that has an entry.
pub fn raise_writing(alloc: Global, table: &mut Vec<Entry<Tallies>>, name: &Name)
    requires { knows table.old.items name.now }
    ensures cause { WritingCounted true (counts_in table.old.items) (counts_in table.new.items)
        name.now }
    ensures keeps { KeepsNames (knows table.old.items) (knows table.new.items) }
{
    let mut now = tallies_of(table.as_slice(), name);
    now.writing = now.writing.saturating_add(1);
    let _ = put(alloc, table, name, now);
}
