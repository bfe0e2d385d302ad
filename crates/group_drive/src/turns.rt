//! What can be driven by turns.
ghost use Rattle.std.specs.Prelude.{◌≡◌, ℕ, List};
ghost use Rattle.network_model.specs.Networks.{Part};
ghost use Rattle.ordered_link.specs.declared.ends.Link.{Link};
ghost use Rattle.group_drive.specs.declared.turns.Turn.TheVariants.{Done};

use feed_pour::Gate;
use ordered_link::Link;
use std::sync::Wait;

/// The links of a network, by their numbers.
pub type Links = Vec<Link>;

/// What a turn did.
#[derive(Clone, Copy)]
pub enum Turn {
    /// It put, took or read something, or cut its element.
    Moved,
    /// Nothing could be moved.
    Idle,
    /// There is nothing left to do.
    Done,
}

/// A gate as one thread sees it. Each `Gate` is one.
pub trait Tells {
    /// What happens before each put, as `Gate::before_put` says.
    fn tell_put(&self, element: u32, count: u64);
}

impl<G: Gate> Tells for G {
    fn tell_put(&self, element: u32, count: u64) {
        self.before_put(element, count);
    }
}

/// What is driven by turns until it is done: an element of a network with its ends of the links.
pub trait Turns: Drop {
    /// Its number, which no turn changes.
    ghost number: { Self → ℕ };

    /// That it runs this part, with its ends of these links.
    ghost runs: { Self → Part → List Link → Type 0 };

    /// That it has run the part to its end.
    ghost ended: { Self → Part → List Link → Type 0 };

    fn number(&self) -> u32
        ensures { result ≡ number self.now };

    /// Moves what it can, up to a bound, and tells the gate before each put.
    fn turn<W: Wait, T: Tells>(&mut self, rt: &W, links: &Links, gate: &T) -> Turn
        requires { (part : Part) × runs self.old part links.now.items }
        ensures number { number self.new ≡ number self.old }
        ensures runs { (part : Part) → runs self.old part links.now.items → runs self.new part links.now.items }
        ensures done { result ≡ Done → (part : Part) → runs self.old part links.now.items → ended self.new part links.now.items };
}
