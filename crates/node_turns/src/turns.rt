//! The turns of a node.
ghost use Rattle.std.specs.Prelude.{◌≡◌};
ghost use Rattle.network_model.specs.Networks.{Part};
ghost use Rattle.node_turns.specs.Idling.{WasIdle};
ghost use Rattle.node_turns.specs.Made.{number_of};
ghost use Rattle.node_turns.specs.Meets.{HasRun, Runs};
ghost use Rattle.group_drive.specs.declared.turns.Turn.TheVariants.{Done, Idle};

use crate::machine::Machine;
use crate::node::Node;
use crate::outside::{Sink, Source};
use group_drive::{Links, Tells, Turn, Turns};
use std::sync::Wait;

/// How many steps a turn has at most.
const MOST_STEPS: u32 = 64;

impl<E: Machine, S: Source, K: Sink> Node<E, S, K> {
    /// Puts what waits, reads or takes while nothing waits, and writes what was poured, up to a bound. `Idle` comes only
    /// where nothing was moved.
    pub fn turn<W: Wait, T: Tells>(&mut self, rt: &W, links: &Links, gate: &T) -> Turn
        requires { (part : Part) × Runs E.stands S.gave S.front S.over K.took K.began K.faults part links.now.items self.old }
        ensures number { number_of self.new ≡ number_of self.old }
        ensures runs { (part : Part) → Runs E.stands S.gave S.front S.over K.took K.began K.faults part links.now.items self.old
            → Runs E.stands S.gave S.front S.over K.took K.began K.faults part links.now.items self.new }
        ensures done { result ≡ Done → (part : Part) → Runs E.stands S.gave S.front S.over K.took K.began K.faults part links.now.items self.old
            → HasRun E.stands S.gave S.front S.over K.took K.began K.faults part links.now.items self.new }
        ensures idle { result ≡ Idle
            → WasIdle E.stands S.gave S.front S.over K.took K.began K.faults links.now.items self.old self.new }
    {
        let mut moved = false;
        'steps: for _ in 0..MOST_STEPS {
            match self.step(rt, links, gate) {
                Turn::Moved => moved = true,
                Turn::Idle => {
                    return if moved { Turn::Moved } else { Turn::Idle };
                }
                Turn::Done => return Turn::Done,
            }
        }
        Turn::Moved
    }
}

impl<E: Machine, S: Source, K: Sink> Turns for Node<E, S, K> {
    ghost number = { λ n. n.number };

    ghost runs = { λ n part links. Runs E.stands S.gave S.front S.over K.took K.began K.faults part links n };

    ghost ended = { λ n part links. HasRun E.stands S.gave S.front S.over K.took K.began K.faults part links n };

    fn number(&self) -> u32 {
        self.number
    }

    fn turn<W: Wait, T: Tells>(&mut self, rt: &W, links: &Links, gate: &T) -> Turn {
        self.turn(rt, links, gate)
    }
}
