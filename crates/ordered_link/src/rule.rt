//! The rule of a link's queue, and the steps that keep it.
ghost use Rattle.std.specs.Prelude.{ℕ, List, Bool, true};
ghost use Rattle.spl_value.specs.declared.packet.Packet.{Packet};

use crossbeam_queue::protocol::{Join, Lesson, Outcome, Protocol, Split};
use crossbeam_queue::{Pass, RuledArrayQueue};
use spl_value::Packet;
use std::collections::LinkedList;
use std::marker::{Brand, PhantomData};

// What a pass may do, the bounds of its link, what it has put and what it has taken. No value of it is
// made.
pub struct Log {
    pub sends: bool,
    pub takes: bool,
    pub capacity: u64,
    pub wear: u64,
    pub sent: LinkedList<Packet>,
    pub taken: LinkedList<Packet>,
}

pub struct Ordered;

impl Protocol<Packet, Log> for Ordered {
    ghost use Rattle.std.specs.Prelude.{true, []};
    ghost use Rattle.ordered_link.specs.Rule.{log, Keeps};

    ghost holds = { Keeps };

    ghost first = { log true true 0 0 [] [] };
}

// The bounds of a link, which its passes learn as they are split.
pub trait Bounds {
    ghost capacity: { ℕ };

    ghost wear: { ℕ };
}

impl Bounds for Brand {
    ghost capacity = { 0 };

    ghost wear = { 0 };
}

pub struct Roles<B>(PhantomData<B>);

impl<B: Bounds> Split<Log> for Roles<B> {
    ghost use Rattle.std.specs.Prelude.{true, false, []};
    ghost use Rattle.ordered_link.specs.Rule.{log};

    ghost left = { λ v. log true false B.capacity B.wear [] [] };

    ghost right = { λ v. log false true B.capacity B.wear [] [] };
}

pub struct Whole;

impl Join<Log> for Whole {
    ghost use Rattle.std.specs.Prelude.{true, false, []};
    ghost use Rattle.ordered_link.specs.Rule.{log};

    ghost both = { λ v w. log true true v.capacity v.wear v.sent w.taken };

    ghost spent = { log false false 0 0 [] [] };
}

pub struct Sends;

impl Outcome<Packet, Log> for Sends {
    ghost use Rattle.ordered_link.specs.Rule.{sends_more};
    ghost use Rattle.std.specs.Prelude.{◌≡◌};

    ghost then = { λ v x w. w ≡ sends_more v x };
}

impl Lesson<Packet, Log> for Sends {
    ghost use Rattle.ordered_link.specs.Rule.{IsSentUpTo};

    ghost fact = { λ v items. IsSentUpTo v.sent items };
}

// A question about what a link holds at one moment.
pub trait Asks {
    ghost seen: { List Packet → Bool };
}

impl Asks for Brand {
    ghost seen = { λ _. true };
}

pub struct Looks<B>(PhantomData<B>);

impl<B: Asks> Outcome<Packet, Log> for Looks<B> {
    ghost use Rattle.std.specs.Prelude.{◌≡◌, ◌≤◌, length};
    ghost use Rattle.ordered_link.specs.Rule.{takes_more};

    ghost then = { λ v x w. (w ≡ takes_more v x) × (length (takes_more v x).taken ≤ v.wear) };
}

impl<B: Asks> Lesson<Packet, Log> for Looks<B> {
    ghost use Rattle.std.specs.Prelude.{◌≡◌, true};

    ghost fact = { λ v items. B.seen items ≡ true };
}

pub struct Total;

impl Lesson<Packet, Log> for Total {
    ghost use Rattle.ordered_link.specs.Rule.{IsRest};

    ghost fact = { λ v items. IsRest v items };
}

pub type Line = RuledArrayQueue<Packet, Log, Ordered>;

pub type LinkPass = Pass<Packet, Log>;
