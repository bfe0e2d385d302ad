// Which groups get a worker, and what happens before each put.
ghost use Rattle.std.specs.Prelude.{◌≡◌, ◌↔◌, IsTrue, Contains};

use spl_value::Items;

/// Says which groups of elements get a worker of their own. The others are driven by the caller.
pub trait Starter {
    /// Whether a group gets a worker. Both answers are lawful.
    fn may_start(&mut self, group: u32) -> bool;
}

/// What happens before each put into a link.
pub trait Gate: Sync {
    /// Called with the element's number and the number of packets that it has put before, or
    /// 2^64 - 1 where that is larger.
    fn before_put(&self, element: u32, count: u64);
}

/// Each group gets a worker.
#[derive(Clone, Copy)]
pub struct AllStart;

impl Starter for AllStart {
    fn may_start(&mut self, _group: u32) -> bool
        ensures { IsTrue result }
    {
        true
    }
}

/// Each group gets a worker but those of a list.
#[derive(Drop)]
pub struct NotThese {
    pub groups: Items<u32>,
}

impl Starter for NotThese {
    fn may_start(&mut self, group: u32) -> bool
        ensures worker { IsTrue result ↔ (Contains self.old.groups group → ⊥) }
        ensures same { self.new ≡ self.old }
    {
        !self.groups.as_slice().contains(&group)
    }
}

/// Does nothing before a put.
#[derive(Clone, Copy)]
pub struct OpenGate;

impl Gate for OpenGate {
    fn before_put(&self, _element: u32, _count: u64) {}
}
