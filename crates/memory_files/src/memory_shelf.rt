// A shelf in memory. Some of its own calls, and of its feeds' and pours', may be told to fail.
ghost use Rattle.std.specs.Prelude.{◌≡◌, ◌<◌, ◌||◌, nat_lt, [], Some, IfOk, IfSome, IsErr, IsSome, OnOk, OnErr};
ghost use Rattle.std.specs.Option.{option_copied};
ghost use Rattle.feed_pour.specs.Contents.{Created, FailsWhere, Finished, IfOpened, KeepsNames, TellsSame, WhereTold, failed_open, failed_read, is_opened};
ghost use Rattle.feed_pour.specs.Counts.{CreatingCounted, Lends, OpeningCounted, Returns, WritingCounted};
ghost use Rattle.memory_files.specs.Failing.{calls_after, one_more};
ghost use Rattle.feed_pour.specs.Files.{counts_in, counts_of, knows};
ghost use Rattle.memory_files.specs.Memory.{memory_told};
ghost use Rattle.feed_pour.specs.Table.{under};

use crate::calls::Calls;
use crate::lists::{copy_under, list_under};
use crate::memory::{MemoryFeed, MemoryPour};
use feed_pour::{
    Entry, Failed, Feed, Opened, Pour, Shelf, Tallies, find, know, put, raise_creating,
    raise_opening, raise_reading, raise_writing, tallies_of,
};
use spl_value::{Bytes, Items, Name, NoMemory};
use std::alloc::Global;

/// Files in memory, and the numbers of the calls that are to fail: of the reads and the writes of
/// each name, and of the shelf's own calls `open_in`, `create` and `finish` together.
pub struct MemoryShelf {
    alloc: Global,
    tallies: Vec<Entry<Tallies>>,
    files: Vec<Entry<Bytes>>,
    failing_reads: Vec<Entry<Items<u64>>>,
    failing_writes: Vec<Entry<Items<u64>>>,
    calls: Calls,
    // How many feeds and pours are lent, up to 2^64 - 1.
    lent: u64,
}

impl Drop for MemoryShelf {
    fn drop(self) {
        let MemoryShelf {
            alloc: _,
            tallies: _,
            files: _,
            failing_reads: _,
            failing_writes: _,
            calls: _,
            lent: _,
        } = self;
    }
}

fn bytes_under(
    alloc: Global,
    files: &[Entry<Bytes>],
    name: &Name,
) -> Result<Option<Bytes>, NoMemory>
    ensures { IfOk result (λ found. found ≡ under files.now name.now) }
{
    match find(files, name) {
        None => Ok(None),
        Some(found) => Ok(Some(Items::from_slice(alloc, found.as_slice())?)),
    }
}

impl MemoryShelf {
    ghost use Rattle.memory_files.specs.Shelves.{IsNew, FilePut, ReadsSet, WritesSet, CallsSet, SameShelf, files_of};

    /// A shelf with no file, none of whose calls is to fail.
    pub fn new(alloc: Global) -> MemoryShelf
        ensures { IsNew result }
    {
        MemoryShelf {
            alloc,
            tallies: Vec::new(alloc),
            files: Vec::new(alloc),
            failing_reads: Vec::new(alloc),
            failing_writes: Vec::new(alloc),
            calls: Calls::new(Items::new(alloc)),
            lent: 0,
        }
    }

    /// Lets a name hold these bytes.
    pub fn put_file(&mut self, name: &Name, bytes: Bytes) -> Result<(), NoMemory>
        ensures ok { OnOk result (FilePut self.old self.new name.now bytes) }
        ensures err { OnErr result (SameShelf self.old self.new) }
    {
        Ok(put(self.alloc, &mut self.files, name, bytes)?)
    }

    /// The reads of these numbers are to fail, for each feed that is opened under the name from now on.
    pub fn fail_reads(&mut self, name: &Name, numbers: Items<u64>) -> Result<(), NoMemory>
        ensures ok { OnOk result (ReadsSet self.old self.new name.now numbers) }
        ensures err { OnErr result (SameShelf self.old self.new) }
    {
        Ok(put(self.alloc, &mut self.failing_reads, name, numbers)?)
    }

    /// The writes of these numbers are to fail, for each pour that is created under the name from now on.
    pub fn fail_writes(&mut self, name: &Name, numbers: Items<u64>) -> Result<(), NoMemory>
        ensures ok { OnOk result (WritesSet self.old self.new name.now numbers) }
        ensures err { OnErr result (SameShelf self.old self.new) }
    {
        Ok(put(self.alloc, &mut self.failing_writes, name, numbers)?)
    }

    /// The shelf's own calls of these numbers are to fail. `open_in`, `create` and `finish` are
    /// counted together from 1, but not a call that found no memory.
    pub fn fail_calls(&mut self, numbers: Items<u64>)
        ensures { CallsSet self.old self.new numbers }
    {
        self.calls.failing = numbers;
    }

    /// What a name holds, where it holds anything.
    pub fn file(&self, name: &Name) -> Option<&[u8]>
        ensures { option_copied result ≡ files_of self.now name.now }
    {
        list_under(self.files.as_slice(), name)
    }

    /// The four counts of a name, 0 for one that the shelf was never asked for.
    pub fn tallies(&self, name: &Name) -> Tallies
        ensures { counts_of (Some result) ≡ ⟦<MemoryShelf as Shelf>⟧.counts self.now name.now }
    {
        tallies_of(self.tallies.as_slice(), name)
    }
}

impl Shelf for MemoryShelf {
    ghost use Rattle.memory_files.specs.Shelves.{SameNumbers, call_fails, calls_made, files_of, opening_fails, reads_to_fail, writes_to_fail};

    type Reader = MemoryFeed;

    type Writer = MemoryPour;

    ghost counts = { λ s. counts_in s.tallies.items };

    ghost told = { λ s. Some (memory_told s.files.items s.failing_reads.items) };

    ghost opened = { λ s. knows s.tallies.items };

    ghost created = { λ s n. knows s.tallies.items n × IsSome (under s.files.items n) };

    ghost lent = { λ s. s.lent };

    fn open_in(&mut self, name: &Name) -> Opened<MemoryFeed>
        ensures cause { OpeningCounted (failed_open result)
            (⟦<MemoryShelf as Shelf>⟧.counts self.old) (⟦<MemoryShelf as Shelf>⟧.counts self.new)
            name.now }
        ensures told { WhereTold (⟦<MemoryShelf as Shelf>⟧.told self.old)
            (⟦<MemoryShelf as Shelf>⟧.told self.new) TellsSame }
        ensures feed { IfOpened result (λ feed. ⟦<MemoryFeed as Feed>⟧.faults feed ≡ 0) }
        ensures script { IfOpened result
            (λ feed. IfSome (⟦<MemoryShelf as Shelf>⟧.told self.old)
            (λ t. ⟦<MemoryFeed as Feed>⟧.script feed ≡ Some (t.script name.now))) }
        ensures opened { IfOpened result (λ _. ⟦<MemoryShelf as Shelf>⟧.opened self.new name.now) }
        ensures keeps { KeepsNames (⟦<MemoryShelf as Shelf>⟧.opened self.old)
            (⟦<MemoryShelf as Shelf>⟧.opened self.new) }
        ensures keeps_created { KeepsNames (⟦<MemoryShelf as Shelf>⟧.created self.old)
            (⟦<MemoryShelf as Shelf>⟧.created self.new) }
        ensures lent { Lends (is_opened result) (⟦<MemoryShelf as Shelf>⟧.lent self.old)
            (⟦<MemoryShelf as Shelf>⟧.lent self.new) }

        // Where it fails, and what the feed is given.
        ensures fails { FailsWhere (opening_fails self.old name.now) result }
        ensures left { IfOpened result
            (λ feed. ⟦<MemoryFeed as Feed>⟧.left feed ≡ files_of self.old name.now) }
        ensures reads { IfOpened result
            (λ feed. feed.calls.failing ≡ reads_to_fail self.old name.now) }
        ensures unread { IfOpened result (λ feed. feed.calls.made ≡ 0) }
        ensures made { calls_made self.new ≡ calls_after result (calls_made self.old) }
        ensures numbers { SameNumbers self.old self.new }
    {
        if know(self.alloc, &mut self.tallies, name).is_err() {
            return Opened::Memory;
        }
        let Ok(failing) = copy_under(self.alloc, self.failing_reads.as_slice(), name) else {
            return Opened::Memory;
        };
        let Ok(found) = bytes_under(self.alloc, self.files.as_slice(), name) else {
            return Opened::Memory;
        };
        let fails = self.calls.count();
        if let Some(bytes) = found {
            if !fails {
                self.lent = self.lent.saturating_add(1);
                return Opened::Ok(MemoryFeed::new(bytes, failing));
            }
        }
        raise_opening(self.alloc, &mut self.tallies, name);
        Opened::Failed
    }

    fn create(&mut self, name: &Name) -> Opened<MemoryPour>
        ensures cause { CreatingCounted (failed_open result)
            (⟦<MemoryShelf as Shelf>⟧.counts self.old) (⟦<MemoryShelf as Shelf>⟧.counts self.new)
            name.now }
        ensures told { WhereTold (⟦<MemoryShelf as Shelf>⟧.told self.old)
            (⟦<MemoryShelf as Shelf>⟧.told self.new) (Created (is_opened result) name.now) }
        ensures pour { IfOpened result (λ pour. ⟦<MemoryPour as Pour>⟧.faults pour ≡ 0) }
        ensures poured { IfOpened result
            (λ pour. IfSome (⟦<MemoryShelf as Shelf>⟧.told self.old)
            (λ t. ⟦<MemoryPour as Pour>⟧.poured pour ≡ Some [])) }
        ensures created { IfOpened result
            (λ _. ⟦<MemoryShelf as Shelf>⟧.created self.new name.now) }
        ensures keeps { KeepsNames (⟦<MemoryShelf as Shelf>⟧.opened self.old)
            (⟦<MemoryShelf as Shelf>⟧.opened self.new) }
        ensures keeps_created { KeepsNames (⟦<MemoryShelf as Shelf>⟧.created self.old)
            (⟦<MemoryShelf as Shelf>⟧.created self.new) }
        ensures lent { Lends (is_opened result) (⟦<MemoryShelf as Shelf>⟧.lent self.old)
            (⟦<MemoryShelf as Shelf>⟧.lent self.new) }

        // Where it fails, and what the pour is given.
        ensures fails { FailsWhere (call_fails self.old) result }
        ensures writes { IfOpened result
            (λ pour. pour.calls.failing ≡ writes_to_fail self.old name.now) }
        ensures unwritten { IfOpened result (λ pour. pour.calls.made ≡ 0) }
        ensures made { calls_made self.new ≡ calls_after result (calls_made self.old) }
        ensures numbers { SameNumbers self.old self.new }
    {
        if know(self.alloc, &mut self.tallies, name).is_err() {
            return Opened::Memory;
        }
        let Ok(failing) = copy_under(self.alloc, self.failing_writes.as_slice(), name) else {
            return Opened::Memory;
        };
        if self.calls.next_fails() {
            self.calls.count();
            raise_creating(self.alloc, &mut self.tallies, name);
            return Opened::Failed;
        }
        if put(self.alloc, &mut self.files, name, Items::new(self.alloc)).is_err() {
            return Opened::Memory;
        }
        self.calls.count();
        self.lent = self.lent.saturating_add(1);
        Opened::Ok(MemoryPour::new(self.alloc, failing))
    }

    fn close_in(&mut self, name: &Name, feed: MemoryFeed) {
        self.lent = self.lent.saturating_sub(1);
        if feed.calls.faults != 0 {
            raise_reading(self.alloc, &mut self.tallies, name);
        }
    }

    fn finish(&mut self, name: &Name, out: MemoryPour) -> Result<(), Failed>
        requires { ⟦<MemoryShelf as Shelf>⟧.created self.old name.now }
        ensures cause { WritingCounted (failed_read result)
            (⟦<MemoryShelf as Shelf>⟧.counts self.old) (⟦<MemoryShelf as Shelf>⟧.counts self.new)
            name.now }
        ensures fault { 0 < ⟦<MemoryPour as Pour>⟧.faults out → IsErr result }
        ensures told { WhereTold (⟦<MemoryShelf as Shelf>⟧.told self.old)
            (⟦<MemoryShelf as Shelf>⟧.told self.new)
            (Finished (failed_read result) name.now (⟦<MemoryPour as Pour>⟧.poured out)) }
        ensures keeps { KeepsNames (⟦<MemoryShelf as Shelf>⟧.opened self.old)
            (⟦<MemoryShelf as Shelf>⟧.opened self.new) }
        ensures keeps_created { KeepsNames (⟦<MemoryShelf as Shelf>⟧.created self.old)
            (⟦<MemoryShelf as Shelf>⟧.created self.new) }
        ensures lent { Returns (⟦<MemoryShelf as Shelf>⟧.lent self.old)
            (⟦<MemoryShelf as Shelf>⟧.lent self.new) }

        // Where it fails, and what the name holds then too.
        ensures fails { failed_read result ≡
            (call_fails self.old || nat_lt 0 (⟦<MemoryPour as Pour>⟧.faults out)) }
        ensures whole { files_of self.new name.now ≡ ⟦<MemoryPour as Pour>⟧.poured out }
        ensures made { calls_made self.new ≡ one_more (calls_made self.old) }
        ensures numbers { SameNumbers self.old self.new }
    {
        self.lent = self.lent.saturating_sub(1);
        let faults = out.calls.faults;
        let _ = put(self.alloc, &mut self.files, name, out.into_bytes());
        if self.calls.count() || faults != 0 {
            raise_writing(self.alloc, &mut self.tallies, name);
            return Err(Failed);
        }
        Ok(())
    }
}
