//! What an operator is by its ports: a state that answers items on its ports one by one.
ghost use Rattle.std.specs.Prelude.{◌≡◌, ◌∷◌, List};
ghost use Rattle.stream_model.specs.Operators.{Operator};
ghost use Rattle.stream_model.specs.Stream.{Event, came};
ghost use Rattle.stream_model.specs.Replies.{IsTaken, OutsFit};
ghost use Rattle.port_reacts.specs.PortReplies.{MayTakeAt, RepliesAt};

use spl_value::Item;
use stream_model::Reply;

/// An operator that answers the items on its ports one by one. It keeps what its answers need of those
/// so far.
pub trait OnPort: Drop {
    /// The operator, with its attributes.
    ghost spec: { Self → Operator };

    /// The histories by ports that the state stands for. A history has its newest event first.
    ghost stands: { Self → List Event → Type 0 };

    /// Takes an item on an input port, and answers what it causes, except for the final markers with which
    /// the operator ends. The operator hasn't ended, the port is one of its ports and hasn't ended, and a
    /// tuple has the attributes of the port. A final marker is the end of the port.
    ///
    /// For every history that the state stands for and after which this item may come, the answer is that
    /// of the item after it, and the state then stands for the longer history. `Ended` comes with a fault
    /// alone. After it and after `Memory` the operator is spent.
    fn on_port(&mut self, port: u32, item: Item) -> Reply
        requires { (h : List Event) × stands self.old h × MayTakeAt (spec self.old) h port item }
        ensures same { spec self.new ≡ spec self.old }
        ensures replies { (h : List Event) → stands self.old h → MayTakeAt (spec self.old) h port item
            → RepliesAt (spec self.old) h port item result }
        ensures stands { (h : List Event) → stands self.old h → MayTakeAt (spec self.old) h port item
            → IsTaken result → stands self.new (came port item ∷ h) }
        ensures fits { OutsFit (spec self.old) result };
}
