// A feed and a pour in memory, some of whose calls may be told to fail.
ghost use Rattle.std.specs.Prelude.{ℕ, true, ◌≡◌, ◌≤◌, ◌+◌, ◌^◌, ◌<◌, [], Some, length, drop, min, IfOk, IfSome};
ghost use Rattle.std.specs.Io.{ReadsAtMost};
ghost use Rattle.memory_files.specs.Failing.{is_to_fail, one_more, writes_after};
ghost use Rattle.feed_pour.specs.Counts.{Counted};
ghost use Rattle.feed_pour.specs.Contents.{PieceGiven, LeftTaken, Poured, PouredWhole, failed_read, failed_write};
ghost use Rattle.memory_files.specs.Memory.{FirstToFail, IsBehindEnd, cut_before, script_of};
ghost use Rattle.memory_files.specs.Plain.{plain_script};

use crate::calls::Calls;
use crate::faultless::place;
use feed_pour::{Failed, Feed, Pour, PourAnswer};
use spl_value::{Bytes, Items};
use std::alloc::Global;

/// A feed of bytes in memory. Each read places as many bytes as fit.
pub struct MemoryFeed {
    bytes: Bytes,
    at: usize,
    /// Its reads so far, and those that are to fail.
    pub calls: Calls,
    ghost within: { at ≤ length bytes },
}

impl Drop for MemoryFeed {
    fn drop(self) {
        let MemoryFeed {
            bytes: _,
            at: _,
            calls: _,
        } = self;
    }
}

impl MemoryFeed {
    /// A feed of these bytes, whose reads of these numbers are to fail.
    pub fn new(bytes: Bytes, failing: Items<u64>) -> MemoryFeed
        ensures script { ⟦<MemoryFeed as Feed>⟧.script result ≡ Some (script_of 0 failing bytes) }
        ensures whole { ((k : ℕ) → is_to_fail k failing ≡ true → 0 < k → IsBehindEnd bytes k)
            → ⟦<MemoryFeed as Feed>⟧.script result ≡ Some (plain_script bytes) }
        ensures cut { (k : ℕ) → FirstToFail failing k → (IsBehindEnd bytes k → ⊥)
            → ⟦<MemoryFeed as Feed>⟧.script result ≡ Some (cut_before k bytes) }
        ensures left { ⟦<MemoryFeed as Feed>⟧.left result ≡ Some bytes }
        ensures faults { ⟦<MemoryFeed as Feed>⟧.faults result ≡ 0 }
        ensures failing { result.calls.failing ≡ failing }
        ensures made { result.calls.made ≡ 0 }
    {
        MemoryFeed {
            bytes,
            at: 0,
            calls: Calls::new(failing),
        }
    }
}

impl Feed for MemoryFeed {
    ghost script = { λ f. Some (script_of f.calls.made f.calls.failing (drop f.at f.bytes)) };

    ghost left = { λ f. Some (drop f.at f.bytes) };

    ghost faults = { λ f. f.calls.faults };

    fn read(&mut self, into: &mut [u8]) -> Result<usize, Failed>
        requires { 0 < length into.old }
        ensures bound { ReadsAtMost result into.new }
        ensures piece { length into.old ≡ 8192
            → PieceGiven (⟦<MemoryFeed as Feed>⟧.script self.old)
            (⟦<MemoryFeed as Feed>⟧.script self.new) result into.new }
        ensures taken { LeftTaken (⟦<MemoryFeed as Feed>⟧.left self.old)
            (⟦<MemoryFeed as Feed>⟧.left self.new) result into.new }
        ensures cause { Counted (failed_read result) (⟦<MemoryFeed as Feed>⟧.faults self.old)
            (⟦<MemoryFeed as Feed>⟧.faults self.new) }
        ensures counted { ⟦<MemoryFeed as Feed>⟧.faults self.new < 2 ^ 64 }

        // As many bytes as fit, and which calls fail.
        ensures fits { IfOk result
            (λ n. IfSome (⟦<MemoryFeed as Feed>⟧.left self.old)
            (λ left. n ≡ min (length into.old) (length left))) }
        ensures fails { failed_read result ≡ is_to_fail (self.old.calls.made + 1)
            self.old.calls.failing }
        ensures made { self.new.calls.made ≡ one_more self.old.calls.made }
        ensures failing { self.new.calls.failing ≡ self.old.calls.failing }
    {
        if self.calls.count() {
            return Err(Failed);
        }
        let n = place(self.bytes.as_slice(), self.at, into);
        self.at += n;
        Ok(n)
    }
}

/// A pour into memory. A write takes all of its bytes, or none of them.
pub struct MemoryPour {
    poured: Vec<u8>,
    /// Its writes so far, and those that are to fail.
    pub calls: Calls,
}

impl Drop for MemoryPour {
    fn drop(self) {
        let MemoryPour {
            poured: _,
            calls: _,
        } = self;
    }
}

impl MemoryPour {
    /// An empty pour, whose writes of these numbers are to fail. It keeps the allocator.
    pub fn new(alloc: Global, failing: Items<u64>) -> MemoryPour
        ensures empty { ⟦<MemoryPour as Pour>⟧.poured result ≡ Some [] }
        ensures faults { ⟦<MemoryPour as Pour>⟧.faults result ≡ 0 }
        ensures failing { result.calls.failing ≡ failing }
        ensures made { result.calls.made ≡ 0 }
    {
        MemoryPour {
            poured: Vec::new(alloc),
            calls: Calls::new(failing),
        }
    }

    /// The bytes that were poured.
    pub fn bytes(&self) -> &[u8]
        ensures { ⟦<MemoryPour as Pour>⟧.poured self.now ≡ Some result.now }
    {
        self.poured.as_slice()
    }

    /// The bytes that were poured, as a list. It takes no memory.
    pub fn into_bytes(self) -> Bytes
        ensures { ⟦<MemoryPour as Pour>⟧.poured self ≡ Some result }
    {
        let MemoryPour { poured, calls: _ } = self;
        Items::from_vec(poured)
    }
}

impl Pour for MemoryPour {
    ghost poured = { λ p. Some p.poured.items };

    ghost faults = { λ p. p.calls.faults };

    fn write(&mut self, from: &[u8]) -> Result<usize, PourAnswer>
        requires { 0 < length from.now }
        ensures some { IfOk result (λ n. (0 < n) × (n ≤ length from.now)) }
        ensures poured { Poured (⟦<MemoryPour as Pour>⟧.poured self.old)
            (⟦<MemoryPour as Pour>⟧.poured self.new) result from.now }
        ensures cause { Counted (failed_write result) (⟦<MemoryPour as Pour>⟧.faults self.old)
            (⟦<MemoryPour as Pour>⟧.faults self.new) }
        ensures counted { ⟦<MemoryPour as Pour>⟧.faults self.new < 2 ^ 64 }

        // All of the bytes or none, and which calls fail.
        ensures whole { PouredWhole (⟦<MemoryPour as Pour>⟧.poured self.old)
            (⟦<MemoryPour as Pour>⟧.poured self.new) result from.now }
        ensures fails { failed_write result ≡ is_to_fail (self.old.calls.made + 1)
            self.old.calls.failing }
        ensures made { self.new.calls.made ≡ writes_after result self.old.calls.made }
        ensures failing { self.new.calls.failing ≡ self.old.calls.failing }
    {
        if self.calls.next_fails() {
            self.calls.count();
            return Err(PourAnswer::Failed);
        }
        if self.poured.extend_from_slice(from).is_err() {
            return Err(PourAnswer::Memory);
        }
        self.calls.count();
        Ok(from.len())
    }
}
