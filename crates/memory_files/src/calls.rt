// The calls of an object in memory. Those that are to fail are named by their numbers, from 1 on.
ghost use Rattle.std.specs.Prelude.{◌≡◌, ◌+◌, ◌^◌, ◌<◌};
ghost use Rattle.memory_files.specs.Failing.{is_to_fail, one_more, CallCounted};
ghost use Rattle.feed_pour.specs.Counts.{Counted};

use spl_value::Items;

/// The calls of a feed, a pour or a shelf in memory.
pub struct Calls {
    /// The numbers of the calls that are to fail.
    pub failing: Items<u64>,
    /// How many calls there were, up to 2^64 - 1.
    pub made: u64,
    /// How many calls failed, up to 2^64 - 1.
    pub faults: u64,
    ghost counted: { faults < 2 ^ 64 },
}

impl Drop for Calls {
    fn drop(self) {
        let Calls {
            failing: _,
            made: _,
            faults: _,
        } = self;
    }
}

fn is_named(number: u64, failing: &[u64]) -> bool
    ensures { result ≡ is_to_fail number failing.now }
{
    failing.iter().any(|k| *k == number)
}

// After 2^64 - 1 calls none is to fail.
fn next_fails(made: u64, failing: &[u64]) -> bool
    ensures fails { result ≡ is_to_fail (made + 1) failing.now }
    ensures step { CallCounted result made (one_more made) failing.now }
{
    made < u64::MAX && is_named(made + 1, failing)
}

impl Calls {
    /// No call yet.
    pub fn new(failing: Items<u64>) -> Calls
        ensures failing { result.failing ≡ failing }
        ensures made { result.made ≡ 0 }
        ensures faults { result.faults ≡ 0 }
    {
        Calls {
            failing,
            made: 0,
            faults: 0,
        }
    }

    /// Whether the next call is to fail.
    pub fn next_fails(&self) -> bool
        ensures { result ≡ is_to_fail (self.now.made + 1) self.now.failing }
    {
        next_fails(self.made, self.failing.as_slice())
    }

    /// Counts a call, and says whether it is to fail.
    pub fn count(&mut self) -> bool
        ensures fails { result ≡ is_to_fail (self.old.made + 1) self.old.failing }
        ensures cause { Counted result self.old.faults self.new.faults }
        ensures made { self.new.made ≡ one_more self.old.made }
        ensures failing { self.new.failing ≡ self.old.failing }
        ensures step { CallCounted result self.old.made self.new.made self.old.failing }
    {
        let fails = next_fails(self.made, self.failing.as_slice());
        self.made = self.made.saturating_add(1);
        if fails {
            self.faults = self.faults.saturating_add(1);
        }
        fails
    }
}
