//! What an operator is to those that run it: a state that answers events one by one.
ghost use Rattle.std.specs.Prelude.{◌≡◌, ◌∷◌, List};
ghost use Rattle.spl_value.specs.declared.item.Item.TheVariants as I;
ghost use Rattle.stream_model.specs.Operators.{Operator};
ghost use Rattle.stream_model.specs.Stream.{Event, came as came_on};
ghost use Rattle.stream_model.specs.Replies.{IsTaken, MayTake, OutsFit, Replies};
ghost use Rattle.stream_model.specs.Went.{reply_of};

use crate::reply::Reply;
use crate::went::Went;
use language_model::Outs;
use spl_value::{Item, Values};

/// An operator that answers its events one by one. It keeps what its answers need of the events so far.
pub trait React: Drop {
    /// The operator, with its attributes.
    ghost spec: { Self → Operator };

    /// The histories that the state represents. A history has its newest event first.
    ghost stands: { Self → List Event → Type 0 };

    /// Takes an item on an input, and answers what the event causes. The operator hasn't ended, the input
    /// is one of its inputs, on which neither a final marker nor a fault has come, and a tuple has the
    /// attributes of the input.
    ///
    /// For every history that the state represents and after which this event may come, the answer is that
    /// of the event after it, and the state then represents the longer history. After `Memory` the operator
    /// can't be used any more.
    fn on_item(&mut self, input: u32, item: Item) -> Reply
        requires { (h : List Event) × stands self.old h × MayTake (spec self.old) h (came_on input item) }
        ensures same { spec self.new ≡ spec self.old }
        ensures replies { (h : List Event) → stands self.old h → MayTake (spec self.old) h (came_on input item)
            → Replies (spec self.old) h (came_on input item) result }
        ensures stands { (h : List Event) → stands self.old h → MayTake (spec self.old) h (came_on input item)
            → IsTaken result → stands self.new (came_on input item ∷ h) }
        ensures fits { OutsFit (spec self.old) result };

    /// Takes a tuple on an input where it stands, and answers as `on_item` does for this tuple: `Went` says which
    /// reply it is. What stood at the place for one that is made, and among the outputs, is of no account.
    fn on_tuple(
        &mut self,
        input: u32,
        came: &mut Values,
        made: &mut Values,
        outs: &mut Outs,
    ) -> Went
        requires { (h : List Event) × stands self.old h × MayTake (spec self.old) h (came_on input (I.Tuple came.old)) }
        ensures same { spec self.new ≡ spec self.old }
        ensures replies { (h : List Event) → stands self.old h → MayTake (spec self.old) h (came_on input (I.Tuple came.old))
            → Replies (spec self.old) h (came_on input (I.Tuple came.old)) (reply_of result came.new made.new outs.new) }
        ensures stands { (h : List Event) → stands self.old h → MayTake (spec self.old) h (came_on input (I.Tuple came.old))
            → IsTaken (reply_of result came.new made.new outs.new) → stands self.new (came_on input (I.Tuple came.old) ∷ h) }
        ensures fits { OutsFit (spec self.old) (reply_of result came.new made.new outs.new) }
    {
        match self.on_item(input, Item::Tuple(came.take())) {
            Reply::Out(given) => {
                *outs = given;
                Went::Gave
            }
            Reply::Ended(given, fault) => {
                *outs = given;
                Went::Ended(fault)
            }
            Reply::Memory => Went::Memory,
        }
    }
}
