// A shelf in memory whose calls never fail. A name that is not there reads as an empty file.
ghost use Rattle.std.specs.Prelude.{◌≡◌, ◌<◌, ◌≤◌, ◌-◌, ◌^◌, [], Some, None, ℕ, List, IfOk, IfSome, IsSome, OnOk, OnErr, length, take, drop, min, ⊤};
ghost use Rattle.std.specs.Io.{ReadsAtMost};
ghost use Rattle.std.specs.Option.{option_copied};
ghost use Rattle.feed_pour.specs.Contents.{IfOpened, KeepsNames, LeftTaken, PieceGiven, Poured, PouredWhole, TellsSame, WhereTold, failed_open, failed_write, is_opened};
ghost use Rattle.feed_pour.specs.Counts.{Counted, Lends, OpeningCounted, no_counts};
ghost use Rattle.memory_files.specs.Plain.{or_empty, plain_script, plain_told};
ghost use Rattle.feed_pour.specs.Table.{under, Puts};

use crate::lists::{copy_under, list_under};
use feed_pour::{Entry, Failed, Feed, Opened, Pour, PourAnswer, Shelf, put};
use spl_value::{Bytes, Items, Name, NoMemory};
use std::alloc::Global;

/// Copies as many bytes as fit, from a place on, and answers how many.
pub fn place(bytes: &[u8], at: usize, into: &mut [u8]) -> usize
    requires { at ≤ length bytes.now }
    ensures count { result ≡ min (length into.old) (length bytes.now - at) }
    ensures bytes { take result into.new ≡ take result (drop at bytes.now) }
{
    let n = into.len().min(bytes.len() - at);
    into[..n].copy_from_slice(&bytes[at..at + n]);
    n
}

/// A feed of bytes in memory. Each read places as many bytes as fit, and none fails.
pub struct PlainFeed {
    bytes: Bytes,
    at: usize,
    ghost within: { at ≤ length bytes },
}

impl Drop for PlainFeed {
    fn drop(self) {
        let PlainFeed { bytes: _, at: _ } = self;
    }
}

impl PlainFeed {
    /// A feed of these bytes.
    pub fn new(bytes: Bytes) -> PlainFeed
        ensures script { ⟦<PlainFeed as Feed>⟧.script result ≡ Some (plain_script bytes) }
        ensures left { ⟦<PlainFeed as Feed>⟧.left result ≡ Some bytes }
    {
        PlainFeed { bytes, at: 0 }
    }
}

impl Feed for PlainFeed {
    ghost script = { λ f. Some (plain_script (drop f.at f.bytes)) };

    ghost left = { λ f. Some (drop f.at f.bytes) };

    ghost faults = { λ _. 0 };

    fn read(&mut self, into: &mut [u8]) -> Result<usize, Failed>
        requires { 0 < length into.old }
        ensures bound { ReadsAtMost result into.new }
        ensures piece { PieceGiven (⟦<PlainFeed as Feed>⟧.script self.old)
            (⟦<PlainFeed as Feed>⟧.script self.new) result into.new }
        ensures taken { LeftTaken (⟦<PlainFeed as Feed>⟧.left self.old)
            (⟦<PlainFeed as Feed>⟧.left self.new) result into.new }

        // As many bytes as fit, with no fault.
        ensures fits { IfSome (⟦<PlainFeed as Feed>⟧.left self.old)
            (λ left. result ≡ Ok (min (length into.old) (length left))) }
    {
        let n = place(self.bytes.as_slice(), self.at, into);
        self.at += n;
        Ok(n)
    }
}

/// A pour into memory. A write takes all of its bytes, and none fails.
pub struct PlainPour {
    poured: Vec<u8>,
}

impl Drop for PlainPour {
    fn drop(self) {
        let PlainPour { poured: _ } = self;
    }
}

impl PlainPour {
    /// An empty pour. It keeps the allocator.
    pub fn new(alloc: Global) -> PlainPour
        ensures { ⟦<PlainPour as Pour>⟧.poured result ≡ Some [] }
    {
        PlainPour {
            poured: Vec::new(alloc),
        }
    }

    /// The bytes that were poured.
    pub fn bytes(&self) -> &[u8]
        ensures { ⟦<PlainPour as Pour>⟧.poured self.now ≡ Some result.now }
    {
        self.poured.as_slice()
    }

    /// The bytes that were poured, as a list. It takes no memory.
    pub fn into_bytes(self) -> Bytes
        ensures { ⟦<PlainPour as Pour>⟧.poured self ≡ Some result }
    {
        let PlainPour { poured } = self;
        Items::from_vec(poured)
    }
}

impl Pour for PlainPour {
    ghost poured = { λ p. Some p.poured.items };

    ghost faults = { λ _. 0 };

    fn write(&mut self, from: &[u8]) -> Result<usize, PourAnswer>
        requires { 0 < length from.now }
        ensures some { IfOk result (λ n. (0 < n) × (n ≤ length from.now)) }
        ensures poured { Poured (⟦<PlainPour as Pour>⟧.poured self.old)
            (⟦<PlainPour as Pour>⟧.poured self.new) result from.now }
        ensures cause { Counted (failed_write result) 0 0 }

        // All of the bytes, or none.
        ensures whole { PouredWhole (⟦<PlainPour as Pour>⟧.poured self.old)
            (⟦<PlainPour as Pour>⟧.poured self.new) result from.now }
    {
        match self.poured.extend_from_slice(from) {
            Ok(()) => Ok(from.len()),
            Err(_) => Err(PourAnswer::Memory),
        }
    }
}

/// Files in memory. No call fails, so that all counts are 0, but memory may run out.
pub struct PlainShelf {
    alloc: Global,
    files: Vec<Entry<Bytes>>,
    // How many feeds and pours are lent, up to 2^64 - 1.
    lent: u64,
}

impl Drop for PlainShelf {
    fn drop(self) {
        let PlainShelf {
            alloc: _,
            files: _,
            lent: _,
        } = self;
    }
}

impl PlainShelf {
    ghost use Rattle.memory_files.specs.PlainFiles.{plain_files};

    /// A shelf with no file.
    pub fn new(alloc: Global) -> PlainShelf
        ensures files { (n : List ℕ) → plain_files result n ≡ None }
        ensures lent { ⟦<PlainShelf as Shelf>⟧.lent result ≡ 0 }
    {
        PlainShelf {
            alloc,
            files: Vec::new(alloc),
            lent: 0,
        }
    }

    /// Lets a name hold these bytes.
    pub fn put_file(&mut self, name: &Name, bytes: Bytes) -> Result<(), NoMemory>
        ensures ok { OnOk result
            (Puts (plain_files self.old) (plain_files self.new) name.now bytes) }
        ensures err { OnErr result
            ((n : List ℕ) → plain_files self.new n ≡ plain_files self.old n) }
        ensures lent { ⟦<PlainShelf as Shelf>⟧.lent self.new ≡ ⟦<PlainShelf as Shelf>⟧.lent
            self.old }
    {
        Ok(put(self.alloc, &mut self.files, name, bytes)?)
    }

    /// What a name holds, where it holds anything.
    pub fn file(&self, name: &Name) -> Option<&[u8]>
        ensures { option_copied result ≡ plain_files self.now name.now }
    {
        list_under(self.files.as_slice(), name)
    }
}

impl Shelf for PlainShelf {
    ghost use Rattle.memory_files.specs.PlainFiles.{plain_files};

    type Reader = PlainFeed;

    type Writer = PlainPour;

    ghost counts = { λ _ _. no_counts };

    ghost told = { λ s. Some (plain_told s.files.items) };

    ghost opened = { λ _ _. ⊤ };

    ghost created = { λ s n. IsSome (under s.files.items n) };

    ghost lent = { λ s. s.lent };

    fn open_in(&mut self, name: &Name) -> Opened<PlainFeed>
        ensures cause { OpeningCounted (failed_open result)
            (⟦<PlainShelf as Shelf>⟧.counts self.old) (⟦<PlainShelf as Shelf>⟧.counts self.new)
            name.now }
        ensures told { WhereTold (⟦<PlainShelf as Shelf>⟧.told self.old)
            (⟦<PlainShelf as Shelf>⟧.told self.new) TellsSame }
        ensures feed { IfOpened result (λ feed. ⟦<PlainFeed as Feed>⟧.faults feed ≡ 0) }
        ensures script { IfOpened result
            (λ feed. IfSome (⟦<PlainShelf as Shelf>⟧.told self.old)
            (λ t. ⟦<PlainFeed as Feed>⟧.script feed ≡ Some (t.script name.now))) }
        ensures opened { IfOpened result (λ _. ⟦<PlainShelf as Shelf>⟧.opened self.new name.now) }
        ensures keeps { KeepsNames (⟦<PlainShelf as Shelf>⟧.opened self.old)
            (⟦<PlainShelf as Shelf>⟧.opened self.new) }
        ensures keeps_created { KeepsNames (⟦<PlainShelf as Shelf>⟧.created self.old)
            (⟦<PlainShelf as Shelf>⟧.created self.new) }
        ensures lent { Lends (is_opened result) (⟦<PlainShelf as Shelf>⟧.lent self.old)
            (⟦<PlainShelf as Shelf>⟧.lent self.new) }

        // A name that isn't there reads as an empty file.
        ensures left { IfOpened result
            (λ feed. ⟦<PlainFeed as Feed>⟧.left feed ≡ Some
            (or_empty (plain_files self.old name.now))) }
        ensures files { (n : List ℕ) → plain_files self.new n ≡ plain_files self.old n }
    {
        match copy_under(self.alloc, self.files.as_slice(), name) {
            Err(_) => Opened::Memory,
            Ok(bytes) => {
                self.lent = self.lent.saturating_add(1);
                Opened::Ok(PlainFeed::new(bytes))
            }
        }
    }

    fn create(&mut self, name: &Name) -> Opened<PlainPour> {
        match put(self.alloc, &mut self.files, name, Items::new(self.alloc)) {
            Err(_) => Opened::Memory,
            Ok(()) => {
                self.lent = self.lent.saturating_add(1);
                Opened::Ok(PlainPour::new(self.alloc))
            }
        }
    }

    fn close_in(&mut self, _name: &Name, _feed: PlainFeed) {
        self.lent = self.lent.saturating_sub(1);
    }

    fn finish(&mut self, name: &Name, out: PlainPour) -> Result<(), Failed> {
        self.lent = self.lent.saturating_sub(1);
        let _ = put(self.alloc, &mut self.files, name, out.into_bytes());
        Ok(())
    }
}
