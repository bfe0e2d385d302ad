// The shelf over the system's files. It tells nothing of what they hold.
ghost use Rattle.std.specs.Prelude.{ℕ, List, ◌≡◌, ◌≤◌, ◌<◌, ◌^◌, [], length, take, true, Some, None, OnOk, IsErr};
ghost use Rattle.std.specs.Io.KnownBytes.{Keeps, Appends};
ghost use Rattle.feed_pour.specs.Contents.{failed_read};
ghost use Rattle.feed_pour.specs.Counts.{Counted, no_counts};
ghost use Rattle.feed_pour.specs.Files.{counts_in, counts_of, knows};

use crate::table::Entry;
use crate::tallies::{
    Tallies, know, raise_creating, raise_opening, raise_reading, raise_writing, tallies_of,
};
use crate::{Failed, Feed, Opened, Pour, PourAnswer, Shelf};
use spl_value::Name;
use std::alloc::Global;
use std::io::{Read, Write};
use std::rt::Files;
use std::{fs, str};

/// A feed over an open file. It tells what is left where the file says so, and the system's files don't.
pub struct FileFeed<F> {
    file: F,
    faults: u64,
    ghost counted: { faults < 2 ^ 64 },
}

impl<F: Drop> Drop for FileFeed<F> {
    fn drop(self) {
        let FileFeed { file: _, faults: _ } = self;
    }
}

impl<F: Read> Feed for FileFeed<F> {
    ghost script = { λ _. None };

    ghost left = { λ f. F.remaining f.file };

    ghost faults = { λ f. f.faults };

    fn read(&mut self, into: &mut [u8]) -> Result<usize, Failed> {
        match self.file.read(into) {
            Ok(n) => Ok(n),
            Err(_) => {
                self.faults = self.faults.saturating_add(1);
                Err(Failed)
            }
        }
    }
}

// How many bytes a pour gathers before it writes them.
const BUFFER: usize = 65536;

/// A pour over an open file. It gathers bytes, and writes them out where its buffer is full and
/// where the shelf finishes it. A write that fails leaves the bytes that were not written in the
/// buffer, so that none is lost and none is written twice.
pub struct FilePour<F> {
    file: F,
    buffer: Vec<u8>,
    // How many bytes of the buffer are written.
    written: usize,
    faults: u64,
    ghost within: { written ≤ length buffer.items },
    ghost counted: { faults < 2 ^ 64 },
}

impl<F: Drop> Drop for FilePour<F> {
    fn drop(self) {
        let FilePour {
            file: _,
            buffer: _,
            written: _,
            faults: _,
        } = self;
    }
}

// Writes until all is written, a write fails, or one takes nothing. Answers how many were written.
fn write_front<F: Write>(file: &mut F, bytes: &[u8]) -> usize
    ensures within { result ≤ length bytes.now }
    ensures bytes { Appends (F.contents file.old) (F.contents file.new) (take result bytes.now) }
{
    let mut written = 0;
    'fronts: while written < bytes.len() {
        match file.write(&bytes[written..]) {
            Ok(n) if n != 0 => written += n,
            _ => return written,
        }
    }
    written
}

impl<F: Write> FilePour<F> {
    ghost use Rattle.feed_pour.specs.Buffered.{file_poured};

    fn fault(&mut self) -> Failed
        ensures cause { Counted true self.old.faults self.new.faults }
        ensures bytes { file_poured F.contents self.new ≡ file_poured F.contents self.old }
    {
        self.faults = self.faults.saturating_add(1);
        Failed
    }

    // Writes the buffer out.
    fn empty_buffer(&mut self) -> Result<(), Failed>
        ensures cause { Counted (failed_read result) self.old.faults self.new.faults }
        ensures bytes { Keeps (file_poured F.contents self.old) (file_poured F.contents self.new) }
        ensures whole { OnOk result
            (Keeps (file_poured F.contents self.old) (F.contents self.new.file)) }
        ensures empty { OnOk result (self.new.buffer.items ≡ []) }
    {
        self.written += write_front(&mut self.file, &self.buffer[self.written..]);
        if self.written < self.buffer.len() {
            return Err(self.fault());
        }
        self.buffer.clear();
        self.written = 0;
        Ok(())
    }

    // Writes out what is left. It fails too where a write has failed before.
    fn close(&mut self) -> Result<(), Failed>
        ensures fault { 0 < self.old.faults → IsErr result }
        ensures whole { OnOk result
            (Keeps (file_poured F.contents self.old) (F.contents self.new.file)) }
    {
        if self.empty_buffer().is_err() || self.faults != 0 || self.file.flush().is_err() {
            return Err(Failed);
        }
        Ok(())
    }
}

impl<F: Write> Pour for FilePour<F> {
    ghost use Rattle.feed_pour.specs.Buffered.{file_poured};

    ghost poured = { λ p. file_poured F.contents p };

    ghost faults = { λ p. p.faults };

    fn write(&mut self, from: &[u8]) -> Result<usize, PourAnswer> {
        if self.buffer.len() >= BUFFER && self.empty_buffer().is_err() {
            return Err(PourAnswer::Failed);
        }
        let n = from.len().min(BUFFER - self.buffer.len());
        match self.buffer.extend_from_slice(&from[..n]) {
            Ok(()) => Ok(n),
            Err(_) => Err(PourAnswer::Memory),
        }
    }
}

/// The system's files by name, in the folder that the program runs in. A name that isn't UTF-8
/// counts as a fault of opening or creating.
#[derive(Drop)]
pub struct FileShelf<R: Files + Drop> {
    rt: R,
    alloc: Global,
    tallies: Vec<Entry<Tallies>>,
    // How many feeds and pours are lent, up to 2^64 - 1.
    lent: u64,
}

impl<R: Files + Drop> FileShelf<R>
where
    R::File: Send,
{
    /// A shelf that was asked for no name yet.
    pub fn new(rt: R, alloc: Global) -> FileShelf<R>
        ensures counts { (n : List ℕ) → ⟦<FileShelf<R> as Shelf>⟧.counts result n ≡ no_counts }
        ensures lent { ⟦<FileShelf<R> as Shelf>⟧.lent result ≡ 0 }
    {
        FileShelf {
            rt,
            alloc,
            tallies: Vec::new(alloc),
            lent: 0,
        }
    }

    /// The four counts of a name, 0 for one that the shelf was never asked for.
    pub fn tallies(&self, name: &Name) -> Tallies
        ensures { counts_of (Some result) ≡ ⟦<FileShelf<R> as Shelf>⟧.counts self.now name.now }
    {
        tallies_of(self.tallies.as_slice(), name)
    }
}

impl<R: Files + Drop> Shelf for FileShelf<R>
where
    R::File: Send,
{
    type Reader = FileFeed<R::File>;

    type Writer = FilePour<R::File>;

    ghost counts = { λ s. counts_in s.tallies.items };

    ghost told = { λ _. None };

    ghost opened = { λ s. knows s.tallies.items };

    ghost created = { λ s. knows s.tallies.items };

    ghost lent = { λ s. s.lent };

    fn open_in(&mut self, name: &Name) -> Opened<FileFeed<R::File>> {
        if know(self.alloc, &mut self.tallies, name).is_err() {
            return Opened::Memory;
        }
        if let Ok(path) = str::from_utf8(name.as_slice()) {
            if let Ok(file) = fs::open(&self.rt, path) {
                self.lent = self.lent.saturating_add(1);
                return Opened::Ok(FileFeed { file, faults: 0 });
            }
        }
        raise_opening(self.alloc, &mut self.tallies, name);
        Opened::Failed
    }

    // The entry and the buffer are made first, so that a lack of memory leaves the files alone.
    fn create(&mut self, name: &Name) -> Opened<FilePour<R::File>> {
        if know(self.alloc, &mut self.tallies, name).is_err() {
            return Opened::Memory;
        }
        let Ok(buffer) = Vec::with_capacity(self.alloc, BUFFER) else {
            return Opened::Memory;
        };
        if let Ok(path) = str::from_utf8(name.as_slice()) {
            if let Ok(file) = fs::create(&self.rt, path) {
                self.lent = self.lent.saturating_add(1);
                return Opened::Ok(FilePour {
                    file,
                    buffer,
                    written: 0,
                    faults: 0,
                });
            }
        }
        raise_creating(self.alloc, &mut self.tallies, name);
        Opened::Failed
    }

    fn close_in(&mut self, name: &Name, feed: FileFeed<R::File>) {
        self.lent = self.lent.saturating_sub(1);
        if feed.faults != 0 {
            raise_reading(self.alloc, &mut self.tallies, name);
        }
    }

    fn finish(&mut self, name: &Name, out: FilePour<R::File>) -> Result<(), Failed> {
        self.lent = self.lent.saturating_sub(1);
        let mut out = out;
        if out.close().is_err() {
            raise_writing(self.alloc, &mut self.tallies, name);
            return Err(Failed);
        }
        Ok(())
    }
}
