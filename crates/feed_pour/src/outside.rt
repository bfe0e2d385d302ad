// The traits of the outside: a source of bytes, a sink of bytes, and a shelf of named files.
ghost use Rattle.std.specs.Prelude.{◌≡◌, ◌<◌, ◌≤◌, ◌^◌, ℕ, List, [], length, Option, Some, IfOk, IfSome, IsErr, nat_lt};
ghost use Rattle.std.specs.Io.{ReadsAtMost};
ghost use Rattle.spl_value.specs.Script.{Script};
ghost use Rattle.feed_pour.specs.Counts.{FaultCounts, Counted, OpeningCounted, CreatingCounted, ReadingCounted, WritingCounted, Lends, Returns};
ghost use Rattle.feed_pour.specs.Contents.{PieceGiven, LeftTaken, Poured, failed_read, failed_write, failed_open, Told, WhereTold, TellsSame, IfOpened, is_opened, KeepsNames, Created, Finished};

use spl_value::Name;

/// The device failed. The object that answers it counted the fault.
#[derive(Clone, Copy)]
pub struct Failed;

/// Why a write poured less than it was given.
#[derive(Clone, Copy)]
pub enum PourAnswer {
    /// The device failed, and the pour counted the fault. A front of the bytes may be poured.
    Failed,
    /// No memory was left. Nothing was poured.
    Memory,
}

/// What a shelf answers where it is asked to open or to create a file.
#[derive(Drop)]
pub enum Opened<T> {
    Ok(T),
    /// The device failed, and the shelf counted the fault under the name.
    Failed,
    /// No memory was left. The shelf is unchanged.
    Memory,
}

/// A source of bytes.
pub trait Feed {
    /// What reads in pieces of 8,192 bytes give, where it is told.
    ghost script: { Self → Option Script };

    /// The bytes that are left, where they are told.
    ghost left: { Self → Option (List ℕ) };

    /// How many reads failed, up to 2^64 - 1.
    ghost faults: { Self → ℕ };

    /// Places bytes at the front of `into`, and answers how many. 0 is the end of the file.
    fn read(&mut self, into: &mut [u8]) -> Result<usize, Failed>
        requires { 0 < length into.old }
        ensures bound { ReadsAtMost result into.new }
        ensures piece { length into.old ≡ 8192
            → PieceGiven (script self.old) (script self.new) result into.new }
        ensures taken { LeftTaken (left self.old) (left self.new) result into.new }
        ensures cause { Counted (failed_read result) (faults self.old) (faults self.new) }
        ensures counted { faults self.new < 2 ^ 64 };
}

/// A sink of bytes.
pub trait Pour {
    /// The bytes that were poured, where they are told.
    ghost poured: { Self → Option (List ℕ) };

    /// How many writes failed, up to 2^64 - 1.
    ghost faults: { Self → ℕ };

    /// Pours a front of `from`, and answers how many bytes it has, at least one. A device that
    /// takes none has failed.
    fn write(&mut self, from: &[u8]) -> Result<usize, PourAnswer>
        requires { 0 < length from.now }
        ensures some { IfOk result (λ n. (0 < n) × (n ≤ length from.now)) }
        ensures poured { Poured (poured self.old) (poured self.new) result from.now }
        ensures cause { Counted (failed_write result) (faults self.old) (faults self.new) }
        ensures counted { faults self.new < 2 ^ 64 };
}

/// Files by name. Each feed and each pour that a shelf gave is given back to it under its name, by
/// `close_in` and `finish`.
pub trait Shelf {
    type Reader: Feed + Send + Drop;

    type Writer: Pour + Send + Drop;

    /// The counts of faults of each name: of opening, creating, reading and writing.
    ghost counts: { Self → List ℕ → FaultCounts };

    /// What each name holds and the script of a feed that is opened on it, where they are told.
    ghost told: { Self → Option Told };

    /// The names that a feed was opened for.
    ghost opened: { Self → List ℕ → Type 0 };

    /// The names that a pour was created for.
    ghost created: { Self → List ℕ → Type 0 };

    /// How many feeds and pours are lent: opened or created, and not given back.
    ghost lent: { Self → ℕ };

    /// A feed of what the name holds. It fails where the name can't be opened.
    fn open_in(&mut self, name: &Name) -> Opened<Self::Reader>
        ensures cause { OpeningCounted (failed_open result) (counts self.old) (counts self.new)
            name.now }
        ensures told { WhereTold (told self.old) (told self.new) TellsSame }
        ensures feed { IfOpened result (λ feed. Self.Reader.faults feed ≡ 0) }
        ensures script { IfOpened result
            (λ feed. IfSome (told self.old)
            (λ t. Self.Reader.script feed ≡ Some (t.script name.now))) }
        ensures opened { IfOpened result (λ _. opened self.new name.now) }
        ensures keeps { KeepsNames (opened self.old) (opened self.new) }
        ensures keeps_created { KeepsNames (created self.old) (created self.new) }
        ensures lent { Lends (is_opened result) (lent self.old) (lent self.new) };

    /// Makes the name empty, and gives a pour into it. It fails where the name can't be created,
    /// and the name then holds what it held.
    fn create(&mut self, name: &Name) -> Opened<Self::Writer>
        ensures cause { CreatingCounted (failed_open result) (counts self.old) (counts self.new)
            name.now }
        ensures told { WhereTold (told self.old) (told self.new)
            (Created (is_opened result) name.now) }
        ensures pour { IfOpened result (λ pour. Self.Writer.faults pour ≡ 0) }
        ensures poured { IfOpened result
            (λ pour. IfSome (told self.old) (λ t. Self.Writer.poured pour ≡ Some [])) }
        ensures created { IfOpened result (λ _. created self.new name.now) }
        ensures keeps { KeepsNames (opened self.old) (opened self.new) }
        ensures keeps_created { KeepsNames (created self.old) (created self.new) }
        ensures lent { Lends (is_opened result) (lent self.old) (lent self.new) };

    /// Takes a feed of this name back. A feed that has failed counts as one fault of reading.
    fn close_in(&mut self, name: &Name, feed: Self::Reader)
        requires { opened self.old name.now }
        ensures cause { ReadingCounted (nat_lt 0 (Self.Reader.faults feed)) (counts self.old)
            (counts self.new) name.now }
        ensures told { WhereTold (told self.old) (told self.new) TellsSame }
        ensures keeps { KeepsNames (opened self.old) (opened self.new) }
        ensures keeps_created { KeepsNames (created self.old) (created self.new) }
        ensures lent { Returns (lent self.old) (lent self.new) };

    /// Takes a pour of this name back, and lets the name hold what was poured. It fails where a
    /// write of the pour failed, and where finishing itself fails. The name then holds a prefix of
    /// what was poured.
    fn finish(&mut self, name: &Name, out: Self::Writer) -> Result<(), Failed>
        requires { created self.old name.now }
        ensures cause { WritingCounted (failed_read result) (counts self.old) (counts self.new)
            name.now }
        ensures fault { 0 < Self.Writer.faults out → IsErr result }
        ensures told { WhereTold (told self.old) (told self.new)
            (Finished (failed_read result) name.now (Self.Writer.poured out)) }
        ensures keeps { KeepsNames (opened self.old) (opened self.new) }
        ensures keeps_created { KeepsNames (created self.old) (created self.new) }
        ensures lent { Returns (lent self.old) (lent self.new) };
}
